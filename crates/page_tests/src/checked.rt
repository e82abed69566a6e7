// Edits of images that are checked first; `None` where they are no page or the edit has no answer.
use field::{Key, Value};
use order::ByteOrder;
use page::check;
use page_edit::{Division, adopt, cost, divider, put, remove};
use page_view::Ordered;

pub(crate) fn is_page(image: &[u8; 512]) -> bool {
    check(&ByteOrder, image)
}

pub(crate) fn put_into(image: &[u8; 512], lsn: u32, key: &Key, value: &Value) -> Option<[u8; 512]> {
    put(Ordered::new(&ByteOrder, image)?, lsn, key, value)
}

pub(crate) fn remove_from(image: &[u8; 512], lsn: u32, key: &Key) -> Option<[u8; 512]> {
    remove(Ordered::new(&ByteOrder, image)?, lsn, key)
}

pub(crate) fn adopt_into(image: &[u8; 512], lsn: u32, key: &Key, child: u32) -> Option<[u8; 512]> {
    adopt(Ordered::new(&ByteOrder, image)?, lsn, key, child)
}

// What a page costs, and where it divides.
pub(crate) fn measures(image: &[u8; 512]) -> Option<(usize, usize)> {
    let page = Ordered::new(&ByteOrder, image)?.view;
    Some((cost(page), divider(page)))
}

// The division of a page, if the page has the slot.
fn division(
    image: &[u8; 512],
    lsn: u32,
    slot: usize,
    other: u32,
) -> Option<Division<'_, ByteOrder>> {
    let page = Ordered::new(&ByteOrder, image)?;
    if slot >= page.view.count() {
        return None;
    }
    Some(Division {
        page,
        lsn,
        slot,
        other,
    })
}

pub(crate) fn lower(image: &[u8; 512], lsn: u32, slot: usize, other: u32) -> Option<[u8; 512]> {
    Some(division(image, lsn, slot, other)?.lower())
}

pub(crate) fn upper(image: &[u8; 512], lsn: u32, slot: usize, other: u32) -> Option<[u8; 512]> {
    Some(division(image, lsn, slot, other)?.upper())
}
