// Where the parts of a page lie in its 512 bytes. Numbers have their lowest byte first, and bytes that no part has are zero.

// 4 bytes each, but for the level, which has one, and the count and the heap's start, which have two.
pub const NUMBER: usize = 0;

pub const LSN: usize = 4;

pub const LEVEL: usize = 8;

pub const COUNT: usize = 10;

pub const FOSTER_CHILD: usize = 12;

pub const HEAP_START: usize = 16;

// Key fields of 17 bytes: a length, and 16 bytes padded with zeros. In the high fence a length of 255 says that there is none.
pub const LOW: usize = 20;

pub const HIGH: usize = 37;

pub const FOSTER_KEY: usize = 54;

// Two bytes for each entry, which say where it lies.
pub const SLOTS: usize = 72;

// Entries lie before this place, each before the one that precedes it, and the seal of all bytes before it lies there.
pub const HEAP_END: usize = 508;

// The length of the longest value.
pub const MAX_VALUE: usize = 64;
