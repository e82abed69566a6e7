// The fields that a record fills by its kind, and the record that fields say.
ghost use Rattle.std.specs.Prelude.{◌≡◌, length, if◌then◌else◌, Some, None, nat_lt};
ghost use Rattle.field.specs.Held.{key_of, value_of};
ghost use Rattle.record.specs.Contents.{content_in, raw_of};
ghost use Rattle.record.specs.Kinds.{number_of};
ghost use Rattle.record.specs.Model.{bytes_option, content_of, content_option, fields_of};

use crate::content::Record;
use crate::entry_key::EntryKey;
use crate::fields::Fields;
use crate::kinds::Kind;
use field::{Key, Value};

impl Record {
    pub fn kind(&self) -> Kind
        ensures { number_of result ≡ (raw_of 0 (content_of self.now)).kind }
    {
        match self {
            Record::Format => Kind::Format,
            Record::Put { .. } => Kind::Put,
            Record::Remove { .. } => Kind::Remove,
            Record::Foster { .. } => Kind::Foster,
            Record::Adopt { .. } => Kind::Adopt,
            Record::Grow { .. } => Kind::Grow,
        }
    }

    fn child_field(&self) -> u32
        ensures { result ≡ (raw_of 0 (content_of self.now)).child }
    {
        match *self {
            Record::Adopt { child, .. } => child,
            _ => 0,
        }
    }

    fn key_field(&self) -> Key
        ensures { key_of result ≡ (raw_of 0 (content_of self.now)).key }
    {
        match self {
            Record::Put { key, .. }
            | Record::Remove { key, .. }
            | Record::Foster { key, .. }
            | Record::Adopt { key, .. } => key.key,
            Record::Format | Record::Grow { .. } => Key::new(&[]),
        }
    }

    fn value_field(&self) -> Value
        ensures { value_of result ≡ (raw_of 0 (content_of self.now)).value }
    {
        match *self {
            Record::Put { value, .. } => value,
            _ => Value::new(&[]),
        }
    }
}

impl Fields {
    pub(crate) fn of(position: u32, content: &Record) -> Fields
        ensures { fields_of result ≡ raw_of position (content_of content.now) }
    {
        let page = content.page();
        let other = content.other_or_none();
        Fields {
            position,
            kind: u8::from(content.kind()),
            page: page.page,
            previous: page.previous,
            other: other.page,
            other_previous: other.previous,
            child: content.child_field(),
            key: content.key_field(),
            value: content.value_field(),
        }
    }

    // What the fields say by their kind, whatever stands in those that the kind does not use.
    pub(crate) fn content(&self) -> Option<Record>
        ensures { content_option result ≡ content_in (fields_of self.now) }
    {
        let (page, previous) = (self.page, self.previous);
        match Kind::try_from(self.kind).ok()? {
            Kind::Format => Some(Record::Format),
            Kind::Put => Some(Record::Put {
                page,
                previous,
                key: self.entry_key()?,
                value: self.value,
            }),
            Kind::Remove => Some(Record::Remove {
                page,
                previous,
                key: self.entry_key()?,
            }),
            Kind::Foster => Some(Record::Foster {
                page,
                previous,
                other: self.other,
                key: self.entry_key()?,
            }),
            Kind::Adopt => Some(Record::Adopt {
                page,
                previous,
                other: self.other,
                other_previous: self.other_previous,
                child: self.child,
                key: self.entry_key()?,
            }),
            Kind::Grow => Some(Record::Grow {
                previous,
                other: self.other,
            }),
        }
    }

    fn entry_key(&self) -> Option<EntryKey>
        ensures { bytes_option result ≡ (if nat_lt 0 (length (key_of self.now.key)) then Some (key_of self.now.key) else None) }
    {
        EntryKey::try_from(self.key).ok()
    }
}
