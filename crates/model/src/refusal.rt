// Why a call is refused.
ghost use Rattle.std.specs.Prelude.{◌≡◌};
ghost use Rattle.model.specs.Refusals.{check_number, number_of};

// What a page on a key's way is held against.
#[derive(Clone, Copy, PartialEq, Eq, Debug, Drop)]
pub enum Check {
    LowFence = 1,
    HighFence = 2,
    Level = 3,
    // its number is that of no page yet
    NotBorn = 4,
}

impl From<Check> for u8 {
    ghost from_gives = { λ check n. n ≡ check_number check };

    // The number by which a check is told.
    fn from(check: Check) -> u8 {
        check as u8
    }
}

#[derive(Clone, Copy, PartialEq, Eq, Debug, Drop)]
pub enum Refusal {
    // a key has 1 to 16 bytes, the key of a next 0 to 16
    KeyLength,
    // a value has at most 64 bytes
    ValueLength,
    // a buffer for a value has at least 64 bytes, one for a key 16
    Buffer,
    // a work list is at least as long as the log's capacity
    WorkList,
    // a device has 4 to 65,536 pages, a log room for 8 to 65,536 records
    Sizes,
    // a store is created on an empty log only
    HasRecords,
    // the first bad position of the log
    BadRecord { position: u32 },
    // the store is not open
    NotOpen,
    // the key is not there, or no key is above it
    Absent,
    // all usable pages are born
    NoPage,
    // the log lacks room
    LogFull,
    // a record that the page needs is lost
    LostRecord { page: u32, position: u32 },
    // a record that the page needs does not fit it
    MisfitRecord { page: u32, position: u32 },
    // the page is not what pointed to it says
    WrongPage { page: u32, check: Check },
    // power failed in the call, or was off
    PowerFailed,
}

impl Refusal {
    // The number by which a refusal is told. No `From`: the page and the position are told behind it.
    pub fn number(self) -> u8
        ensures { result ≡ number_of self }
    {
        match self {
            Refusal::KeyLength => 1,
            Refusal::ValueLength => 2,
            Refusal::Buffer => 3,
            Refusal::WorkList => 4,
            Refusal::Sizes => 5,
            Refusal::HasRecords => 6,
            Refusal::BadRecord { .. } => 7,
            Refusal::NotOpen => 8,
            Refusal::Absent => 9,
            Refusal::NoPage => 10,
            Refusal::LogFull => 11,
            Refusal::LostRecord { .. } => 12,
            Refusal::MisfitRecord { .. } => 13,
            Refusal::WrongPage { .. } => 14,
            Refusal::PowerFailed => 15,
        }
    }
}
