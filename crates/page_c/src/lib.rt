// Pages for callers in C, in byte order: for tests and measurements beside other code.
#![tactic(auto)]

ghost use Rattle.std.specs.Prelude.{◌≡◌, ◌&&◌, length, take, if◌then◌else◌, nat_le};
ghost use Rattle.order.specs.Orders.{by_byte};
ghost use Rattle.page.specs.Form.{is_sound};

use order::ByteOrder;
use page::check;
use page_view::Ordered;

// 1 if the first 512 bytes are a page, 0 if they are none or fewer.
#[unsafe(no_mangle)]
pub extern "C" fn page_check(bytes: &[u8]) -> u32
    ensures { result ≡ (if nat_le 512 (length bytes.now) && is_sound by_byte (take 512 bytes.now) then 1 else 0) }
{
    let Some((image, _)) = bytes.split_first_chunk::<512>() else {
        return 0;
    };
    u32::from(check(&ByteOrder, image))
}

// Looks for each key of eight bytes, so many times, and adds up the slots: a sum for a benchmark to hold on to.
#[unsafe(no_mangle)]
pub extern "C" fn page_finds(bytes: &[u8], keys: &[u8], turns: u32) -> u64 {
    let Some((image, _)) = bytes.split_first_chunk::<512>() else {
        return 0;
    };
    Ordered::new(&ByteOrder, image).map_or(0, |page| finds(page, keys, turns))
}

fn slot_of(page: Ordered<'_, ByteOrder>, key: &[u8; 8]) -> u64 {
    match page.find(key) {
        Ok(i) | Err(i) => i as u64,
    }
}

fn finds(page: Ordered<'_, ByteOrder>, keys: &[u8], turns: u32) -> u64 {
    let mut sum = 0u64;
    for _ in 0..turns {
        for key in keys.as_chunks::<8>().0 {
            sum = sum.wrapping_add(slot_of(page, key));
        }
    }
    sum
}
