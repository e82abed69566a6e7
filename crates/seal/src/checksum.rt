// CRC32C eight bytes at a time, and of long inputs in three streams side by side.
ghost use Rattle.std.specs.Prelude.{◌≡◌, ◌+◌, ◌<◌, length};
ghost use Rattle.seal.specs.Crc.{byte_step, crc, run, steps};
ghost use Rattle.seal.specs.Tables.{by_tables, distance};

use crate::tables::entry;

// Where the register starts, and what it is flipped by at the end.
const ONES: u32 = 0xFFFF_FFFF;

// The first of the four tables that carry a word over itself, over a second word, and over a stream of 168 bytes.
const OVER_WORD: usize = 0;

const OVER_TWO: usize = 4;

const OVER_STREAM: usize = 8;

// A word carried by four tables. What a byte becomes does not depend on the bytes beside it, so the parts are added.
fn carry(first: usize, x: u32) -> u32
    requires { first < 9 }
    ensures { result ≡ by_tables first x }
{
    entry(first + 3, x & 0xff)
        ^ entry(first + 2, x >> 8 & 0xff)
        ^ entry(first + 1, x >> 16 & 0xff)
        ^ entry(first, x >> 24)
}

// One byte more.
fn step(c: u32, b: u8) -> u32
    ensures { result ≡ byte_step c b }
{
    entry(0, (c ^ u32::from(b)) & 0xff) ^ c >> 8
}

// Eight bytes more. The word that does not wait for the register is looked up first, which
// shortens the chain of operations from one turn to the next.
fn step8(c: u32, b: &[u8; 8]) -> u32
    ensures { result ≡ run c b.now }
{
    let [b0, b1, b2, b3, b4, b5, b6, b7] = *b;
    let high = carry(OVER_WORD, u32::from_le_bytes([b4, b5, b6, b7]));
    high ^ carry(OVER_TWO, c ^ u32::from_le_bytes([b0, b1, b2, b3]))
}

// The bytes left behind the eights, one by one.
fn tail(from: u32, bytes: &[u8]) -> u32
    ensures { result ≡ run from bytes.now }
{
    bytes.iter().fold(from, |c, b| step(c, *b))
}

// One stream.
fn stream(from: u32, bytes: &[u8]) -> u32
    ensures { result ≡ run from bytes.now }
{
    let (eights, rest) = bytes.as_chunks::<8>();
    tail(eights.iter().fold(from, step8), rest)
}

// Three streams of 168 bytes side by side, which the processor works on at once; the second and the third begin at 0.
fn streams(from: u32, first: &[u8], second: &[u8], third: &[u8]) -> (u32, u32, u32)
    requires first { length first.now ≡ 168 }
    requires second { length second.now ≡ 168 }
    requires third { length third.now ≡ 168 }
    ensures first { result.0 ≡ run from first.now }
    ensures second { result.1 ≡ run 0 second.now }
    ensures third { result.2 ≡ run 0 third.now }
{
    let (x, _) = first.as_chunks::<8>();
    let (y, _) = second.as_chunks::<8>();
    let (z, _) = third.as_chunks::<8>();
    x.iter()
        .zip(y)
        .zip(z)
        .fold((from, 0, 0), |(c, d, e), ((p, q), s)| {
            (step8(c, p), step8(d, q), step8(e, s))
        })
}

// A chunk of three streams, joined by linearity: what the first became is carried over the second, and what both
// became over the third.
fn chunk(from: u32, bytes: &[u8; 504]) -> u32
    ensures { result ≡ run from bytes.now }
{
    let (first, rest) = bytes.split_at(168);
    let (second, third) = rest.split_at(168);
    let (c, d, e) = streams(from, first, second, third);
    carry(OVER_STREAM, carry(OVER_STREAM, c) ^ d) ^ e
}

// The register after any bytes.
fn register(from: u32, bytes: &[u8]) -> u32
    ensures { result ≡ run from bytes.now }
{
    let (chunks, rest) = bytes.as_chunks::<504>();
    stream(chunks.iter().fold(from, chunk), rest)
}

pub fn crc32c(bytes: &[u8]) -> u32
    ensures { result ≡ crc bytes.now }
{
    register(ONES, bytes) ^ ONES
}
