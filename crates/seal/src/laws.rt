// Theorems about the definitions, each on the contract of a function.
ghost use Rattle.std.specs.Prelude.{◌≡◌, codes};
ghost use Rattle.seal.specs.Crc.{crc};
ghost use Rattle.seal.specs.Laws.{PassingIsSealed, SealedPasses};

use crate::checksum::crc32c;

// The check value by which CRC32C is known, that of the ASCII digits 1 to 9.
pub fn check_value() -> u32
    ensures { result ≡ crc (codes "123456789") }
{
    crc32c(b"123456789")
}

pub fn check_value_is_e3069283()
    ensures { crc (codes "123456789") ≡ 0xE3069283 }
{}

// Every body with its seal behind it passes, and a block that passes is a body with its seal behind it.
pub fn sealed_blocks_pass_and_no_others()
    ensures sealed_passes { SealedPasses }
    ensures passing_is_sealed { PassingIsSealed }
{}
