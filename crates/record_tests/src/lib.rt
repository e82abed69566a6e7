// Records at the edges of their layout.
#![tactic(auto)]

#[cfg(test)]
mod tests {
    use field::Value;
    use record::{Change, EntryKey, Record};
    use seal::seal_array;
    use std::test::Fail;

    fn put(key: &[u8], value: Value) -> Option<Record> {
        Some(Record::Put {
            page: 3,
            previous: 5,
            key: EntryKey::try_from(key).ok()?,
            value,
        })
    }

    fn reads_back(record: Option<Record>) -> bool {
        let Some(said) = record else {
            return false;
        };
        Record::from_bytes(&said.to_bytes(7)) == Some((7, said))
    }

    // Whether the image is refused once a byte has another value, with a seal to match.
    fn refused_with(image: &[u8; 128], at: usize, byte: u8) -> bool {
        let mut other = *image;
        if at < 128 {
            other[at] = byte;
        }
        seal_array(&mut other);
        Record::from_bytes(&other).is_none()
    }

    #[test]
    fn shortest_and_longest_strings(rt: HostRuntime) {
        assert!(rt; reads_back(put(&[0], Value::new(&[]))));
        assert!(rt; reads_back(put(&[255; 16], Value::new(&[]))));
        assert!(rt; reads_back(put(&[0; 16], Value::new(&[0; 64]))));
        assert!(rt; reads_back(put(&[1], Value::new(&[255; 64]))));
    }

    #[test]
    fn keys_have_1_to_16_bytes(rt: HostRuntime) {
        assert!(rt; EntryKey::try_from(&[][..]).is_err());
        assert!(rt; EntryKey::try_from(&[1; 17][..]).is_err());
        assert!(rt; EntryKey::try_from(&[1; 16][..]).is_ok());
    }

    #[test]
    fn only_the_image_itself_is_read(rt: HostRuntime) -> Result<(), Fail> {
        let Some(said) = put(&[9], Value::new(&[8, 8])) else {
            return Err(Fail::new("a key of one byte"));
        };
        let image = said.to_bytes(1);
        assert!(rt; !refused_with(&image, 0, 1));
        assert!(rt;
            refused_with(&image, 20, 1),
            "a child that a put does not use"
        );
        assert!(rt; refused_with(&image, 24, 0), "kind 0");
        assert!(rt; refused_with(&image, 24, 7), "kind 7");
        assert!(rt; refused_with(&image, 25, 0), "a byte behind an empty key");
        assert!(rt; refused_with(&image, 25, 17), "a key of 17 bytes");
        assert!(rt; refused_with(&image, 27, 1), "a byte behind the key");
        assert!(rt; refused_with(&image, 42, 65), "a value of 65 bytes");
        assert!(rt; refused_with(&image, 45, 1), "a byte behind the value");
        assert!(rt; refused_with(&image, 107, 1), "the first filler");
        assert!(rt; refused_with(&image, 123, 1), "the last filler");
        Ok(())
    }

    #[test]
    fn empty_key_is_refused(rt: HostRuntime) {
        let grow = Record::Grow {
            previous: 4,
            other: 9,
        };
        let image = grow.to_bytes(6);
        assert!(rt; !refused_with(&image, 24, 6));
        assert!(rt; refused_with(&image, 24, 2));
        assert!(rt; refused_with(&image, 24, 3));
        assert!(rt; refused_with(&image, 24, 4));
        assert!(rt; refused_with(&image, 24, 5));
    }

    #[test]
    fn wrong_seal_is_refused(rt: HostRuntime) {
        let mut image = Record::Format.to_bytes(1);
        assert!(rt; Record::from_bytes(&image).is_some());
        image[124] ^= 1;
        assert!(rt; Record::from_bytes(&image).is_none());
    }

    #[test]
    fn grow_changes_page_0_and_a_new_page(rt: HostRuntime) {
        let grow = Record::Grow {
            previous: 4,
            other: 9,
        };
        assert!(rt; u8::from(grow.kind()) == 6);
        assert!(rt;
            grow.page()
                == Change {
                    page: 0,
                    previous: 4,
                }
        );
        assert!(rt;
            grow.other()
                == Some(Change {
                    page: 9,
                    previous: 0,
                })
        );
        assert!(rt; grow.previous_of(0) == Some(4));
        assert!(rt; grow.previous_of(9) == Some(0));
        assert!(rt; grow.previous_of(1).is_none());
    }
}
