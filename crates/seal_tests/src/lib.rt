// CRC32C and seals held to outside vectors, and to the definition run byte by byte.
#![tactic(auto)]

#[cfg(test)]
mod tests {
    use seal::{SealError, check_value, crc32c, is_sealed, seal_array, seal_block};

    // The definition as it is written down: a bit at a time, with no table.
    fn bit_by_bit(bytes: &[u8]) -> u32 {
        let mut c = 0xFFFF_FFFFu32;
        for b in bytes {
            c ^= u32::from(*b);
            for _ in 0..8 {
                let feedback = if c & 1 == 1 { 0x82F6_3B78 } else { 0 };
                c = c >> 1 ^ feedback;
            }
        }
        c ^ 0xFFFF_FFFF
    }

    const ASCENDING: [u8; 32] = [
        0x00, 0x01, 0x02, 0x03, 0x04, 0x05, 0x06, 0x07, 0x08, 0x09, 0x0a, 0x0b, 0x0c, 0x0d, 0x0e,
        0x0f, 0x10, 0x11, 0x12, 0x13, 0x14, 0x15, 0x16, 0x17, 0x18, 0x19, 0x1a, 0x1b, 0x1c, 0x1d,
        0x1e, 0x1f,
    ];

    const DESCENDING: [u8; 32] = [
        0x1f, 0x1e, 0x1d, 0x1c, 0x1b, 0x1a, 0x19, 0x18, 0x17, 0x16, 0x15, 0x14, 0x13, 0x12, 0x11,
        0x10, 0x0f, 0x0e, 0x0d, 0x0c, 0x0b, 0x0a, 0x09, 0x08, 0x07, 0x06, 0x05, 0x04, 0x03, 0x02,
        0x01, 0x00,
    ];

    // An iSCSI command PDU that reads, with its digest's bytes, the lowest first.
    const READ_COMMAND: [u8; 48] = [
        0x01, 0xc0, 0x00, 0x00, 0x00, 0x00, 0x00, 0x00, 0x00, 0x00, 0x00, 0x00, 0x00, 0x00, 0x00,
        0x00, 0x14, 0x00, 0x00, 0x00, 0x00, 0x00, 0x04, 0x00, 0x00, 0x00, 0x00, 0x14, 0x00, 0x00,
        0x00, 0x18, 0x28, 0x00, 0x00, 0x00, 0x00, 0x00, 0x00, 0x00, 0x02, 0x00, 0x00, 0x00, 0x00,
        0x00, 0x00, 0x00,
    ];

    #[test]
    fn vectors_of_rfc_3720_appendix_b_4(rt: HostRuntime) {
        assert_eq!(rt; crc32c(&[0; 32]).to_le_bytes(), [0xaa, 0x36, 0x91, 0x8a]);
        assert_eq!(rt; crc32c(&[0xff; 32]).to_le_bytes(), [0x43, 0xab, 0xa8, 0x62]);
        assert_eq!(rt; crc32c(&ASCENDING).to_le_bytes(), [0x4e, 0x79, 0xdd, 0x46]);
        assert_eq!(rt; crc32c(&DESCENDING).to_le_bytes(), [0x5c, 0xdb, 0x3f, 0x11]);
        assert_eq!(rt;
            crc32c(&READ_COMMAND).to_le_bytes(),
            [0x56, 0x3a, 0x96, 0xd9]
        );
        assert_eq!(rt; check_value(), 0xE306_9283);
    }

    // A row of bytes without a pattern.
    fn noise(out: &mut [u8]) {
        let mut x = 0x2545_F491u32;
        for b in out.iter_mut() {
            x = x.wrapping_mul(1_664_525).wrapping_add(1_013_904_223);
            *b = (x >> 24) as u8;
        }
    }

    // Every length up to forty, and those about the ends of one chunk and of two.
    #[test]
    fn lengths_agree_with_the_definition(rt: HostRuntime) {
        let mut row = [0u8; 1100];
        noise(&mut row);
        for n in 0..41usize {
            assert_eq!(rt; crc32c(&row[0..n]), bit_by_bit(&row[0..n]));
        }
        for n in [
            124, 167, 168, 495, 496, 503, 504, 505, 508, 511, 512, 1007, 1008, 1009, 1016,
            1100usize,
        ] {
            assert_eq!(rt; crc32c(&row[0..n]), bit_by_bit(&row[0..n]));
        }
    }

    // Whether a block passes with any one bit changed.
    fn passes_with_a_bit_changed(block: &mut [u8]) -> bool {
        // by index: the whole block is read between the two changes of a byte
        for i in 0..block.len() {
            for bit in 0..8u32 {
                block[i] ^= 1 << bit;
                if is_sealed(block) {
                    return true;
                }
                block[i] ^= 1 << bit;
            }
        }
        false
    }

    #[test]
    fn every_flipped_bit_of_a_sealed_block_is_refused(rt: HostRuntime) {
        let mut record = [0u8; 128];
        noise(&mut record);
        seal_array(&mut record);
        assert!(rt; is_sealed(&record));
        assert!(rt; !passes_with_a_bit_changed(&mut record));
        let mut page = [0u8; 512];
        noise(&mut page);
        seal_array(&mut page);
        assert!(rt; is_sealed(&page));
        assert!(rt; !passes_with_a_bit_changed(&mut page));
    }

    #[test]
    fn short_blocks_are_not_sealed(rt: HostRuntime) {
        let mut short = [7u8, 8, 9];
        for n in 0..4usize {
            assert!(rt; !is_sealed(&short[0..n]));
        }
        assert!(rt; seal_block(&mut short) == Err(SealError::TooShort));
        assert_eq!(rt; short, [7, 8, 9]);
        let mut four = [7u8, 8, 9, 10];
        assert!(rt; seal_block(&mut four) == Ok(()));
        assert_eq!(rt; four, [0, 0, 0, 0]);
        assert!(rt; is_sealed(&four));
    }
}
