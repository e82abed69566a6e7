// What stands above a page's entries.
use field::Key;

#[derive(Clone, Copy)]
pub struct Foster {
    pub key: Key,
    pub child: u32,
}

#[derive(Clone, Copy)]
pub struct Header {
    pub number: u32,
    pub lsn: u32,
    pub level: u8,
    pub low: Key,
    pub high: Option<Key>,
    pub foster: Option<Foster>,
}
