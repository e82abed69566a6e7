// The pages that a record changes.
ghost use Rattle.std.specs.Prelude.{◌≡◌};
ghost use Rattle.std.specs.Option.{unwrap_or};
ghost use Rattle.record.specs.Changes.{other_in, page_in, previous_in};
ghost use Rattle.record.specs.Model.{change_of, change_option, content_of};

use crate::content::{Change, Record};

impl Record {
    // Its page: every record changes one.
    pub fn page(&self) -> Change
        ensures { change_of result ≡ page_in (content_of self.now) }
    {
        match *self {
            Record::Format => Change::default(),
            Record::Put { page, previous, .. }
            | Record::Remove { page, previous, .. }
            | Record::Foster { page, previous, .. }
            | Record::Adopt { page, previous, .. } => Change { page, previous },
            Record::Grow { previous, .. } => Change { page: 0, previous },
        }
    }

    // The other page, where it changes two.
    pub fn other(&self) -> Option<Change>
        ensures { change_option result ≡ other_in (content_of self.now) }
    {
        match *self {
            Record::Format | Record::Put { .. } | Record::Remove { .. } => None,
            Record::Foster { other, .. } | Record::Grow { other, .. } => Some(Change {
                page: other,
                previous: 0,
            }),
            Record::Adopt {
                other,
                other_previous,
                ..
            } => Some(Change {
                page: other,
                previous: other_previous,
            }),
        }
    }

    pub(crate) fn other_or_none(&self) -> Change
        ensures { change_of result ≡ unwrap_or (other_in (content_of self.now)) (0, 0) }
    {
        self.other().unwrap_or_default()
    }

    // The position of the record that changed a page before this one did, if this one does.
    pub fn previous_of(&self, page: u32) -> Option<u32>
        ensures { result ≡ previous_in page (content_of self.now) }
    {
        let first = self.page();
        if first.page == page {
            return Some(first.previous);
        }
        let second = self.other()?;
        (second.page == page).then_some(second.previous)
    }
}
