// Tests of the operations, by examples.
#![tactic(auto)]

#[cfg(test)]
mod tests {
    use operation::Operation;
    use operation::affine::{Affine, AffineElement};
    use operation::fault::{BlockFault, ModulusFault};
    use operation::least::{Least, Placed};
    use operation::text::{Counts, Text};
    use std::test::Fail;

    fn map(a: u32, b: u32) -> AffineElement {
        AffineElement { a, b }
    }

    fn placed(value: i32, place: u32) -> Option<Placed> {
        Some(Placed { value, place })
    }

    #[test]
    fn a_modulus_has_its_range(rt: HostRuntime) {
        assert!(rt; Affine::new(0).is_err());
        assert!(rt; Affine::new(1).is_err());
        assert!(rt; Affine::new(2_147_483_648).is_err());
        assert_eq!(rt; ModulusFault::OutOfRange.number(), 1);
    }

    #[test]
    fn maps_compose_left_to_right(rt: HostRuntime) -> Result<(), Fail> {
        let op = Affine::new(10)?;
        assert_eq!(rt; op.modulus(), 10);
        assert_eq!(rt; op.join(map(2, 1), map(3, 4)), map(6, 7));
        assert_eq!(rt; op.join(map(3, 4), map(2, 1)), map(6, 9));
        assert_eq!(rt; op.join(op.unit(), map(9, 9)), map(9, 9));
        Ok(())
    }

    #[test]
    fn the_smallest_and_the_largest_modulus(rt: HostRuntime) -> Result<(), Fail> {
        let two = Affine::new(2)?;
        assert_eq!(rt; two.join(map(1, 1), map(1, 1)), map(1, 0));
        assert_eq!(rt; two.unpack(&[1, 2]), Err(BlockFault::WrongWord(1)));
        let big = Affine::new(2_147_483_647)?;
        let top = map(2_147_483_646, 2_147_483_646);
        assert_eq!(rt; big.join(top, top), map(1, 0));
        assert_eq!(rt;
            big.join(map(4_294_967_295, 4_294_967_295), top),
            map(2_147_483_646, 2_147_483_645)
        );
        Ok(())
    }

    #[test]
    fn a_map_names_its_wrong_word(rt: HostRuntime) -> Result<(), Fail> {
        let op = Affine::new(10)?;
        assert_eq!(rt; op.unpack(&[9, 9]), Ok(map(9, 9)));
        assert_eq!(rt; op.unpack(&[10, 10]), Err(BlockFault::WrongWord(0)));
        assert_eq!(rt; op.unpack(&[9, 10]), Err(BlockFault::WrongWord(1)));
        assert_eq!(rt; op.unpack(&[9]), Err(BlockFault::WrongLength));
        assert_eq!(rt; op.unpack(&[9, 9, 9]), Err(BlockFault::WrongLength));
        assert_eq!(rt; BlockFault::WrongLength.number(), 2);
        assert_eq!(rt; BlockFault::WrongWord(1).number(), 3);
        Ok(())
    }

    #[test]
    fn a_word_that_goes_on_counts_once(rt: HostRuntime) {
        let left = Text::measure(b"one tw");
        let right = Text::measure(b"o\nthree");
        assert_eq!(rt; Text.join(left, right), Text::measure(b"one two\nthree"));
        assert_eq!(rt; Text.join(right, left), Text::measure(b"o\nthreeone tw"));
        assert_eq!(rt; Text.join(Text.unit(), left), left);
        assert_eq!(rt; Text::measure(b""), None);
    }

    // Space is bytes 9 to 13 and 32; their neighbours 8, 14, 31 and 33 are parts of words.
    #[test]
    fn six_bytes_are_space(rt: HostRuntime) {
        let space = Counts {
            bytes: 6,
            lines: 1,
            words: 0,
            left: false,
            right: false,
        };
        assert_eq!(rt; Text::measure(&[9, 10, 11, 12, 13, 32]), Some(space));
        let words = Counts {
            bytes: 7,
            lines: 0,
            words: 4,
            left: true,
            right: true,
        };
        assert_eq!(rt; Text::measure(&[8, 9, 14, 13, 31, 32, 33]), Some(words));
    }

    #[test]
    fn a_text_is_packed_in_four_words(rt: HostRuntime) {
        let mut block = [9; 5];
        Text.pack(Text::measure(b" one\ntwo"), &mut block);
        assert_eq!(rt; block, [8, 1, 2, 5, 9]);
        Text.pack(Text::measure(b""), &mut block);
        assert_eq!(rt; block, [0, 0, 0, 0, 9]);
        Text.pack(Text::measure(b"x"), &mut block[0..3]);
        assert_eq!(rt; block, [0, 0, 0, 0, 9]);
    }

    #[test]
    fn a_text_names_its_wrong_word(rt: HostRuntime) {
        assert_eq!(rt; Text.unpack(&[0, 0, 0, 0]), Ok(None));
        assert!(rt; Text.unpack(&[1, 2, 3, 4]).is_ok());
        assert!(rt; Text.unpack(&[1, 2, 3, 7]).is_ok());
        assert_eq!(rt; Text.unpack(&[0, 0, 0, 3]), Err(BlockFault::WrongWord(3)));
        assert_eq!(rt; Text.unpack(&[1, 1, 1, 8]), Err(BlockFault::WrongWord(3)));
        assert_eq!(rt; Text.unpack(&[1, 1, 1, 0]), Err(BlockFault::WrongWord(0)));
        assert_eq!(rt; Text.unpack(&[0, 1, 1, 0]), Err(BlockFault::WrongWord(1)));
        assert_eq!(rt; Text.unpack(&[0, 0, 1, 0]), Err(BlockFault::WrongWord(2)));
        assert_eq!(rt; Text.unpack(&[1, 1, 1]), Err(BlockFault::WrongLength));
    }

    // The counts go round at 2^32, by intent.
    #[test]
    fn counts_are_modulo_two_to_the_32(rt: HostRuntime) -> Result<(), Fail> {
        let full = Text.unpack(&[4_294_967_295, 4_294_967_295, 0, 7])?;
        let one = Text.unpack(&[2, 1, 0, 7])?;
        let mut block = [0; 4];
        Text.pack(Text.join(full, one), &mut block);
        assert_eq!(rt; block, [1, 0, 4_294_967_295, 7]);
        Ok(())
    }

    #[test]
    fn the_least_value_stays(rt: HostRuntime) {
        assert_eq!(rt; Least.join(placed(5, 3), placed(5, 2)), placed(5, 2));
        assert_eq!(rt; Least.join(placed(5, 2), placed(5, 2)), placed(5, 2));
        assert_eq!(rt; Least.join(placed(-1, 9), placed(0, 1)), placed(-1, 9));
        assert_eq!(rt;
            Least.join(placed(i32::MAX, 0), placed(i32::MIN, 4)),
            placed(i32::MIN, 4)
        );
        assert_eq!(rt; Least.join(None, placed(i32::MAX, 7)), placed(i32::MAX, 7));
        assert_eq!(rt; Least.join(placed(i32::MAX, 7), None), placed(i32::MAX, 7));
    }

    #[test]
    fn values_are_packed_above_zero(rt: HostRuntime) {
        let mut block = [9; 3];
        Least.pack(placed(i32::MIN, 6), &mut block);
        assert_eq!(rt; block, [1, 0, 6]);
        Least.pack(placed(i32::MAX, 4_294_967_295), &mut block);
        assert_eq!(rt; block, [1, 4_294_967_295, 4_294_967_295]);
        Least.pack(None, &mut block);
        assert_eq!(rt; block, [0, 0, 0]);
        assert_eq!(rt; Least.unpack(&[1, 2_147_483_653, 3]), Ok(placed(5, 3)));
    }

    #[test]
    fn a_least_names_its_wrong_word(rt: HostRuntime) {
        assert_eq!(rt; Least.unpack(&[0, 0, 0]), Ok(None));
        assert_eq!(rt; Least.unpack(&[2, 0, 0]), Err(BlockFault::WrongWord(0)));
        assert_eq!(rt; Least.unpack(&[0, 1, 1]), Err(BlockFault::WrongWord(1)));
        assert_eq!(rt; Least.unpack(&[0, 0, 1]), Err(BlockFault::WrongWord(2)));
        assert_eq!(rt; Least.unpack(&[1, 2]), Err(BlockFault::WrongLength));
    }
}
