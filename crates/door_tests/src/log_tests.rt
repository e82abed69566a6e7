// Logs in memory and on pages.
use crate::failing::{Cut, Failing};
use device::{Card, Mirror, PowerOff};
use page_log::PageLog;
use seal::is_sealed;
use std::ops::Range;
use wal::{AppendError, Log, RecordError, SlotLog};

const FULL: Result<u32, AppendError> = Err(AppendError::Full);

const LOST: Result<u8, RecordError> = Err(RecordError::Lost);

fn added<L: Log>(log: &mut L, mark: u8) -> Result<u32, AppendError> {
    log.append(&[mark; 128])
}

// The byte behind the position of a record, or 0 if it is not sealed or carries another position.
fn mark<L: Log>(log: &mut L, position: u32) -> Result<u8, RecordError> {
    let record = log.read(position)?;
    let sound = record.starts_with(&position.to_le_bytes()) && is_sealed(&record);
    Ok(if sound { record[4] } else { 0 })
}

// What a log tells of three appends, and of its length then.
type Filled = ([Result<u32, AppendError>; 3], Result<u32, PowerOff>);

fn fill<L: Log>(log: &mut L) -> Filled {
    ([added(log, 5), added(log, 6), added(log, 7)], log.len())
}

type Marks = [Result<u8, RecordError>; 4];

fn marks<L: Log>(log: &mut L) -> Marks {
    [mark(log, 0), mark(log, 1), mark(log, 2), mark(log, 3)]
}

fn filled(memory: &mut [u8]) -> Filled {
    fill(&mut SlotLog::new(memory))
}

fn marks_in(memory: &mut [u8]) -> Marks {
    marks(&mut SlotLog::new(memory))
}

// Capacity and length of a log in a part of memory.
fn size_in(memory: &mut [u8], part: Range<usize>) -> Option<(u32, Result<u32, PowerOff>)> {
    let mut log = SlotLog::new(memory.get_mut(part)?);
    Some((log.capacity(), log.len()))
}

#[test]
fn a_log_over_zeros_fills_up(rt: HostRuntime) {
    let mut memory = [0; 300];
    assert_eq!(rt; marks_in(&mut memory), [LOST; 4]);
    assert_eq!(rt; filled(&mut memory), ([Ok(1), Ok(2), FULL], Ok(2)));
    assert_eq!(rt; marks_in(&mut memory), [LOST, Ok(5), Ok(6), LOST]);
}

#[test]
fn a_log_over_garbage_is_empty(rt: HostRuntime) {
    let mut memory = [0xA7; 384];
    assert_eq!(rt; size_in(&mut memory, 0..384), Some((3, Ok(0))));
    assert_eq!(rt; filled(&mut memory), ([Ok(1), Ok(2), Ok(3)], Ok(3)));
}

#[test]
fn a_log_of_no_slots_is_full_and_one_of_one_takes_one(rt: HostRuntime) {
    let mut none = [0; 127];
    let mut one = [0; 128];
    assert_eq!(rt; filled(&mut none), ([FULL; 3], Ok(0)));
    assert_eq!(rt; filled(&mut one), ([Ok(1), FULL, FULL], Ok(1)));
}

#[test]
fn a_log_over_cut_memory_ends_at_its_last_whole_slot(rt: HostRuntime) {
    let mut memory = [0; 384];
    assert_eq!(rt; filled(&mut memory), ([Ok(1), Ok(2), Ok(3)], Ok(3)));
    assert_eq!(rt; size_in(&mut memory, 0..300), Some((2, Ok(2))));
    // a slot that stands elsewhere is sealed, but carries another position
    assert_eq!(rt; size_in(&mut memory, 128..384), Some((2, Ok(0))));
}

#[test]
fn a_log_over_half_old_memory_ends_at_its_last_passing_slot(rt: HostRuntime) {
    let mut memory = [0; 384];
    assert_eq!(rt; filled(&mut memory), ([Ok(1), Ok(2), Ok(3)], Ok(3)));
    memory[128 + 60] ^= 1;
    assert_eq!(rt; marks_in(&mut memory), [LOST, Ok(5), LOST, Ok(7)]);
    memory[256 + 127] ^= 1;
    assert_eq!(rt; size_in(&mut memory, 0..384), Some((3, Ok(1))));
}

fn filled_mirror(first: &mut [u8], second: &mut [u8]) -> Filled {
    fill(&mut PageLog::new(Mirror::new(Card::new(first), Card::new(second))))
}

fn marks_on(first: &mut [u8], second: &mut [u8]) -> Marks {
    marks(&mut PageLog::new(Mirror::new(Card::new(first), Card::new(second))))
}

#[test]
fn a_log_on_a_mirror_of_cards_outlives_one_side(rt: HostRuntime) {
    let mut first = [0; 1024];
    let mut second = [0; 1024];
    assert_eq!(rt;
        filled_mirror(&mut first, &mut second),
        ([Ok(1), Ok(2), FULL], Ok(2))
    );
    first[60] ^= 1;
    second[512 + 60] ^= 1;
    assert_eq!(rt;
        marks_on(&mut first, &mut second),
        [LOST, Ok(5), Ok(6), LOST]
    );
    first[512] ^= 1;
    assert_eq!(rt;
        marks_on(&mut first, &mut second),
        [LOST, Ok(5), LOST, LOST]
    );
}

// Length of a log opened on a card.
fn length_on(memory: &mut [u8]) -> Result<u32, PowerOff> {
    PageLog::new(Card::new(memory)).len()
}

// What a log that power fails in tells of its second append, and of its length, off and awake.
fn lengths_around(
    memory: &mut [u8],
    cut: Cut,
) -> (Result<u32, AppendError>, [Result<u32, PowerOff>; 2]) {
    let mut log = PageLog::new(Failing::new(Card::new(memory), Some(1), cut));
    let _ = added(&mut log, 5);
    let answer = added(&mut log, 6);
    let off = log.len();
    log.wake();
    (answer, [off, log.len()])
}

// And of its length when it is opened again.
fn lengths_after(cut: Cut) -> (Result<u32, AppendError>, [Result<u32, PowerOff>; 3]) {
    let mut memory = [0; 1024];
    let (answer, [off, awake]) = lengths_around(&mut memory, cut);
    (answer, [off, awake, length_on(&mut memory)])
}

#[test]
fn a_cut_append_is_added_exactly_if_its_page_was_left_new(rt: HostRuntime) {
    let off = Err(AppendError::Off);
    assert_eq!(rt;
        lengths_after(Cut::Old),
        (off, [Err(PowerOff), Ok(1), Ok(1)])
    );
    assert_eq!(rt;
        lengths_after(Cut::New),
        (off, [Err(PowerOff), Ok(2), Ok(2)])
    );
    assert_eq!(rt;
        lengths_after(Cut::Torn),
        (off, [Err(PowerOff), Ok(1), Ok(1)])
    );
}

// What a log that is off answers, and its first record once it is awake.
fn answers_off(
    memory: &mut [u8],
) -> (
    Result<u32, AppendError>,
    Result<u8, RecordError>,
    Result<u32, PowerOff>,
    Result<u8, RecordError>,
) {
    let mut log = PageLog::new(Failing::new(Card::new(memory), Some(0), Cut::New));
    let _ = added(&mut log, 5);
    let (append, read, length) = (added(&mut log, 6), mark(&mut log, 1), log.len());
    log.wake();
    (append, read, length, mark(&mut log, 1))
}

#[test]
fn a_log_that_is_off_answers_off(rt: HostRuntime) {
    let mut memory = [0; 512];
    assert_eq!(rt;
        answers_off(&mut memory),
        (
            Err(AppendError::Off),
            Err(RecordError::Off),
            Err(PowerOff),
            Ok(5)
        )
    );
}

fn filled_card(memory: &mut [u8]) -> Filled {
    fill(&mut PageLog::new(Card::new(memory)))
}

#[test]
fn a_log_on_a_card_of_no_pages_is_full_and_one_of_one_takes_one(rt: HostRuntime) {
    let mut none = [0; 511];
    let mut one = [0; 512];
    assert_eq!(rt; filled_card(&mut none), ([FULL; 3], Ok(0)));
    assert_eq!(rt; filled_card(&mut one), ([Ok(1), FULL, FULL], Ok(1)));
}
