//! Numbers with values by hand.
use gj_lex::read_number;

/// The parts of the number of a word.
fn parts_of(word: &[u8]) -> Option<(i128, i128)> {
    let x = read_number(word)?;
    Some((x.num(), x.den()))
}

#[test]
fn numbers(rt: HostRuntime) {
    let words: [(&[u8], Option<(i128, i128)>); 9] = [
        (b"00012/00024", Some((1, 2))),
        (b"-0", Some((0, 1))),
        (b"2.50", Some((5, 2))),
        (b"-17.123456", Some((-267_554, 15_625))),
        (
            b"-170141183460469231731687303715884105727",
            Some((-i128::MAX, 1)),
        ),
        (b"1/-2", None),
        (b"1/0", None),
        (b"170141183460469231731687303715884105728", None),
        (b"0.000000000000000000000000000000000000000", None),
    ];
    for (word, parts) in words {
        assert!(rt; parts_of(word) == parts);
    }
}
