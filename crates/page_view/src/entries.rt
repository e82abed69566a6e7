// A page's entries, each by its slot.
ghost use Rattle.std.specs.Prelude.{◌≡◌, ◌-◌, ◌<◌, ◌≤◌, length, take, drop};
ghost use Rattle.page.specs.Content.{child_in, cost, entry_at, entry_key, value_in};
ghost use Rattle.page.specs.Image.{entry_bytes, parse_page};
ghost use Rattle.std.specs.Iterator.{at_most};
ghost use Rattle.page_view.specs.Entries.{entries_left, gives_entry};
ghost use Rattle.page_view.specs.Lent.{entry_lent};
ghost use Rattle.page_view.specs.Places.{behind_key, place_of};

use crate::view::{EntryView, PageView};
use field::{field_at, half_at, word_at};
use page::layout::SLOTS;

impl<'a> PageView<'a> {
    pub fn entry(&self, slot: usize) -> EntryView<'a>
        requires { slot < length (parse_page self.now.image.now).entries }
        ensures page { result.page ≡ self.now }
        ensures slot { result.slot ≡ slot }
        ensures entry { entry_lent result ≡ entry_at (parse_page self.now.image.now) slot }
    {
        EntryView { page: *self, slot }
    }
}

impl<'a> EntryView<'a> {
    // Where it begins.
    fn place_of(&self) -> usize
        ensures { result ≡ place_of self.now.page.image.now self.now.slot }
    {
        let b = self.page.image;
        half_at(b, SLOTS + 2 * self.slot)
    }

    // Where its value or its child begins.
    fn behind_key(&self) -> usize
        ensures { result ≡ behind_key self.now.page.image.now self.now.slot }
    {
        let b = self.page.image;
        let at = self.place_of();
        at + 1 + usize::from(b[at])
    }

    // Where it ends.
    fn end_of(&self) -> usize
        ensures within { result ≤ 512 }
        ensures ordered { place_of self.now.page.image.now self.now.slot ≤ result }
        ensures bytes { take (result - place_of self.now.page.image.now self.now.slot) (drop (place_of self.now.page.image.now self.now.slot) self.now.page.image.now) ≡ entry_bytes (entry_lent self.now) }
    {
        let second = self.behind_key();
        if self.page.level() == 0 {
            second + 1 + self.value().len()
        } else {
            second + 4
        }
    }

    pub fn slot(&self) -> usize
        ensures value { result ≡ self.now.slot }
        ensures few { result < 65536 }
    {
        self.slot
    }

    pub fn key(&self) -> &'a [u8]
        ensures { result.now ≡ entry_key (entry_lent self.now) }
    {
        let b = self.page.image;
        field_at(b, self.place_of())
    }

    pub fn value(&self) -> &'a [u8]
        requires { (parse_page self.now.page.image.now).level ≡ 0 }
        ensures { result.now ≡ value_in (entry_lent self.now) }
    {
        let b = self.page.image;
        field_at(b, self.behind_key())
    }

    pub fn child(&self) -> u32
        requires { 0 < (parse_page self.now.page.image.now).level }
        ensures { result ≡ child_in (entry_lent self.now) }
    {
        let b = self.page.image;
        word_at(b, self.behind_key())
    }

    // The whole entry, as its bytes.
    pub fn bytes(&self) -> &'a [u8]
        ensures { result.now ≡ entry_bytes (entry_lent self.now) }
    {
        let b = self.page.image;
        &b[self.place_of()..self.end_of()]
    }

    // What it costs of its page: its bytes, and two of its slot.
    pub fn cost(&self) -> usize
        ensures { result ≡ cost (entry_lent self.now) }
    {
        2 + self.bytes().len()
    }
}

// The entries of a page that are still to come.
#[derive(Clone, Copy)]
pub struct Entries<'a> {
    page: PageView<'a>,
    next: usize,
}

impl<'a> PageView<'a> {
    pub fn entries(&self) -> Entries<'a>
        ensures page { result.page ≡ self.now }
        ensures first { result.next ≡ 0 }
        ensures all { entries_left result ≡ (parse_page self.now.image.now).entries }
    {
        Entries {
            page: *self,
            next: 0,
        }
    }
}

impl<'a> Iterator for Entries<'a> {
    type Item = EntryView<'a>;

    ghost next_gives = { gives_entry };

    ghost remaining = { λ s. at_most (length (entries_left s)) };

    fn next(&mut self) -> Option<EntryView<'a>> {
        if self.next >= self.page.count() {
            return None;
        }
        let entry = self.page.entry(self.next);
        self.next += 1;
        Some(entry)
    }
}
