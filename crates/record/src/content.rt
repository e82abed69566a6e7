// What a log record says. Its position is the log's to give.
use crate::entry_key::EntryKey;
use field::Value;

#[derive(Clone, Copy, PartialEq, Eq)]
pub enum Record {
    // page 0 is made
    Format,
    Put {
        page: u32,
        previous: u32,
        key: EntryKey,
        value: Value,
    },
    Remove {
        page: u32,
        previous: u32,
        key: EntryKey,
    },
    // a page gives its entries from the key on to the new page `other`, its foster child
    Foster {
        page: u32,
        previous: u32,
        other: u32,
        key: EntryKey,
    },
    // a branch takes the foster child of its child `other` as a child of its own
    Adopt {
        page: u32,
        previous: u32,
        other: u32,
        other_previous: u32,
        child: u32,
        key: EntryKey,
    },
    // page 0 gives its entries to the new page `other`, and becomes a branch above it
    Grow {
        previous: u32,
        other: u32,
    },
}

// A page that a record changes, and the position of the record that changed it before, 0 for a page that is new.
#[derive(Clone, Copy, PartialEq, Eq, Debug, Default)]
pub struct Change {
    pub page: u32,
    pub previous: u32,
}
