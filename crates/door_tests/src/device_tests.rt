// Cards, mirrors and repair.
use crate::failing::{Cut, Failing};
use device::{Card, Mirror, PageDevice, PowerOff, ReadError, Repair, repair_page};
use seal::{is_sealed, seal_array};

// A sealed page that begins with this byte.
fn page(first: u8) -> [u8; 512] {
    let mut bytes = [first; 512];
    seal_array(&mut bytes);
    bytes
}

// What a page shows: the one that was there before, the new one, another, or one that is not intact.
#[derive(Clone, Copy, PartialEq, Eq, Debug)]
enum Shows {
    Old,
    New,
    Other,
    Torn,
}

fn look_of(bytes: &[u8; 512]) -> Shows {
    if !is_sealed(bytes) {
        return Shows::Torn;
    }
    match bytes[0] {
        1 => Shows::Old,
        2 => Shows::New,
        _ => Shows::Other,
    }
}

fn shown<D: PageDevice>(device: &mut D, page: u32) -> Result<Shows, ReadError> {
    let bytes = device.read(page)?;
    Ok(look_of(&bytes))
}

// A card's count, and what its pages show after writes to the second and the third.
fn card_after(memory: &mut [u8]) -> (usize, [Result<Shows, ReadError>; 3]) {
    let mut card = Card::new(memory);
    let _ = card.write(1, &page(2));
    let _ = card.write(2, &page(2));
    card.wake();
    (
        card.count(),
        [
            shown(&mut card, 0),
            shown(&mut card, 1),
            shown(&mut card, 2),
        ],
    )
}

#[test]
fn a_card_has_the_whole_pages_of_its_bytes(rt: HostRuntime) {
    let mut memory = [7; 1200];
    assert_eq!(rt;
        card_after(&mut memory),
        (
            2,
            [Ok(Shows::Torn), Ok(Shows::New), Err(ReadError::Unreadable)]
        )
    );
    assert_eq!(rt; (memory[511], memory[512], memory[1024]), (7, 2, 7));
}

#[test]
fn a_card_of_fewer_bytes_than_a_page_has_none(rt: HostRuntime) {
    let mut memory = [7; 511];
    assert_eq!(rt;
        card_after(&mut memory),
        (0, [Err(ReadError::Unreadable); 3])
    );
    assert_eq!(rt; memory[0], 7);
}

// What a page shows after a cut write, off and awake.
fn after_cut(cut: Cut) -> (Result<Shows, ReadError>, Result<Shows, ReadError>) {
    let mut memory = page(1);
    let mut device = Failing::new(Card::new(&mut memory), Some(0), cut);
    let _ = device.write(0, &page(2));
    let off = shown(&mut device, 0);
    device.wake();
    (off, shown(&mut device, 0))
}

#[test]
fn a_cut_write_leaves_old_new_or_torn(rt: HostRuntime) {
    let off = Err(ReadError::Off);
    assert_eq!(rt; after_cut(Cut::Old), (off, Ok(Shows::Old)));
    assert_eq!(rt; after_cut(Cut::New), (off, Ok(Shows::New)));
    assert_eq!(rt; after_cut(Cut::Torn), (off, Ok(Shows::Torn)));
}

// What a mirror shows when power is cut in the write to one of its sides, whose first page is intact or not. None where the
// cut left no trace on the answer or the power.
fn mirror_after(in_first: bool, cut: Cut, first_intact: bool) -> Option<Result<Shows, ReadError>> {
    let mut first = if first_intact { page(1) } else { [9; 512] };
    let mut second = page(1);
    let (to_first, to_second) = if in_first {
        (Some(0), None)
    } else {
        (None, Some(0))
    };
    let mut mirror = Mirror::new(
        Failing::new(Card::new(&mut first), to_first, cut),
        Failing::new(Card::new(&mut second), to_second, cut),
    );
    if mirror.write(0, &page(2)).is_ok() || mirror.powered() {
        return None;
    }
    mirror.wake();
    Some(shown(&mut mirror, 0))
}

#[test]
fn a_cut_in_the_second_side_shows_where_the_first_is_not_intact(rt: HostRuntime) {
    assert_eq!(rt; mirror_after(false, Cut::Old, true), Some(Ok(Shows::Old)));
    assert_eq!(rt; mirror_after(false, Cut::New, true), Some(Ok(Shows::Old)));
    assert_eq!(rt; mirror_after(false, Cut::Torn, true), Some(Ok(Shows::Old)));
    assert_eq!(rt; mirror_after(false, Cut::Old, false), Some(Ok(Shows::Old)));
    assert_eq!(rt; mirror_after(false, Cut::New, false), Some(Ok(Shows::New)));
    assert_eq!(rt;
        mirror_after(false, Cut::Torn, false),
        Some(Ok(Shows::Torn))
    );
}

#[test]
fn a_cut_in_the_first_side_never_tears_a_mirror(rt: HostRuntime) {
    assert_eq!(rt; mirror_after(true, Cut::Old, true), Some(Ok(Shows::Old)));
    assert_eq!(rt; mirror_after(true, Cut::New, true), Some(Ok(Shows::New)));
    assert_eq!(rt; mirror_after(true, Cut::Torn, true), Some(Ok(Shows::New)));
    assert_eq!(rt; mirror_after(true, Cut::Old, false), Some(Ok(Shows::New)));
    assert_eq!(rt; mirror_after(true, Cut::New, false), Some(Ok(Shows::New)));
    assert_eq!(rt; mirror_after(true, Cut::Torn, false), Some(Ok(Shows::New)));
}

// A mirror's count, and what its pages show after writes to both.
fn mirror_of(first: &mut [u8], second: &mut [u8]) -> (usize, [Result<Shows, ReadError>; 2]) {
    let mut mirror = Mirror::new(Card::new(first), Card::new(second));
    let _ = mirror.write(0, &page(2));
    let _ = mirror.write(1, &page(2));
    (
        mirror.count(),
        [shown(&mut mirror, 0), shown(&mut mirror, 1)],
    )
}

#[test]
fn a_mirror_counts_the_smaller_side_and_leaves_the_rest_alone(rt: HostRuntime) {
    let mut small = [9; 600];
    let mut large = [9; 1024];
    assert_eq!(rt;
        mirror_of(&mut small, &mut large),
        (1, [Ok(Shows::New), Err(ReadError::Unreadable)])
    );
    assert_eq!(rt; (small[0], large[0], large[512]), (2, 2, 9));
}

// Two writes to a mirror, where power fails in the first device at once: the other one takes only what came before.
fn twice_while_failing(
    first: &mut [u8],
    second: &mut [u8],
) -> ([Result<(), PowerOff>; 2], Result<Shows, ReadError>) {
    let mut mirror = Mirror::new(
        Failing::new(Card::new(first), Some(0), Cut::Old),
        Card::new(second),
    );
    let early = mirror.write(0, &page(2));
    let late = mirror.write(0, &page(3));
    ([early, late], shown(&mut mirror, 0))
}

#[test]
fn a_mirror_that_is_off_changes_neither_side(rt: HostRuntime) {
    let mut first = [1; 512];
    let mut second = [1; 512];
    assert_eq!(rt;
        twice_while_failing(&mut first, &mut second),
        ([Err(PowerOff); 2], Err(ReadError::Off))
    );
    assert_eq!(rt; (first[0], second[0]), (1, 2));
}

fn repaired(memory: &mut [u8], spare: &[u8; 512]) -> Result<Repair, PowerOff> {
    repair_page(&mut Card::new(memory), 0, spare)
}

#[test]
fn repair_replaces_a_page_that_is_not_intact(rt: HostRuntime) {
    let mut memory = [9; 512];
    assert_eq!(rt; repaired(&mut memory, &page(1)), Ok(Repair::Replaced));
    assert_eq!(rt; memory[0], 1);
    assert_eq!(rt; repaired(&mut memory, &page(2)), Ok(Repair::Intact));
    assert_eq!(rt; memory[0], 1);
}
