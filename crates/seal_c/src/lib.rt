// CRC32C for callers in C: a static library around the crate `seal`.
#![tactic(auto)]

ghost use Rattle.std.specs.Prelude.{◌≡◌};
ghost use Rattle.seal.specs.Crc.{crc};

// A pointer and a length.
#[unsafe(no_mangle)]
pub extern "C" fn seal_crc32c(bytes: &[u8]) -> u32
    ensures { result ≡ crc bytes.now }
{
    seal::crc32c(bytes)
}
