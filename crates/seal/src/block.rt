// Blocks whose last four bytes seal the others: log records of 128 bytes, pages of 512, and any other length.
ghost use Rattle.std.specs.Prelude.{◌≡◌, ◌-◌, ◌≤◌, length, take, if◌then◌else◌, Ok, Err, nat_le};
ghost use Rattle.seal.specs.Seal.{body_of, is_sealed, sealed};

use crate::checksum::crc32c;

#[derive(Clone, Copy, PartialEq, Eq, Debug)]
pub enum SealError {
    // a block of fewer than four bytes has no room for a seal
    TooShort,
}

pub fn is_sealed(block: &[u8]) -> bool
    ensures { result ≡ is_sealed block.now }
{
    let Some((body, seal)) = block.split_last_chunk::<4>() else {
        return false;
    };
    u32::from_le_bytes(*seal) == crc32c(body)
}

// Writes the seal of a block behind its body. A block that is too short stays as it is.
pub fn seal_block(block: &mut [u8]) -> Result<(), SealError>
    ensures answer { result ≡ (if nat_le 4 (length block.old) then Ok tt else Err SealError.TooShort) }
    ensures after { block.new ≡ (if nat_le 4 (length block.old) then sealed (body_of block.old) else block.old) }
{
    let Some((body, seal)) = block.split_last_chunk_mut::<4>() else {
        return Err(SealError::TooShort);
    };
    *seal = crc32c(body).to_le_bytes();
    Ok(())
}

// The same at a known length that has room for a seal, where it cannot fail.
pub fn seal_array<const N: usize>(block: &mut [u8; N])
    requires { 4 ≤ N }
    ensures { block.new ≡ sealed (take (N - 4) block.old) }
{
    let _ = seal_block(block);
}
