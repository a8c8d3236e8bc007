//! Words, draws, shuffles and choices of the random stream.

use nl_draw::Stream;

// A draw below 2^64 - 1 shows two words, unless all their bits are set. The words are those of PCG's
// reference code in C.
#[test]
fn words_are_those_of_the_reference_code(rt: HostRuntime) {
    let rows = [
        (
            42,
            [0xa15c02b77b47f409, 0xba1d333083d2f293, 0xbfa4784bcbed606e],
        ),
        (
            0,
            [0x47c28b93b98f6a27, 0x7d3dcb1ef0761116, 0x9cc33f5bbe0e744d],
        ),
        (
            u64::MAX,
            [0x11526277e6d82672, 0xaf1798bad0751021, 0xa734cdb8ad4f9760],
        ),
    ];
    for (seed, pairs) in rows {
        let mut stream = Stream::new(seed);
        for pair in pairs {
            assert_eq!(rt; stream.draw(u64::MAX), pair, "at seed {seed}");
        }
    }
}

#[test]
fn draws_below_ten(rt: HostRuntime) {
    for (seed, digits) in [(42, [5, 9, 6]), (0, [9, 6, 7]), (u64::MAX, [4, 5, 2])] {
        let mut stream = Stream::new(seed);
        for digit in digits {
            assert_eq!(rt; stream.draw(10), digit, "at seed {seed}");
        }
    }
}

#[test]
fn shuffles_of_three(rt: HostRuntime) {
    for (seed, order) in [(42, [2, 1, 0]), (0, [2, 0, 1]), (u64::MAX, [0, 1, 2])] {
        let mut list = [0, 1, 2];
        Stream::new(seed).shuffle(&mut list);
        assert_eq!(rt; list, order, "at seed {seed}");
    }
}

// Seven items take six draws, and one takes none.
#[test]
fn draws_after_a_shuffle(rt: HostRuntime) {
    let mut stream = Stream::new(42);
    let mut seven = [0, 1, 2, 3, 4, 5, 6];
    stream.shuffle(&mut seven);
    stream.shuffle(&mut [7]);
    assert_eq!(rt; seven, [0, 5, 2, 4, 1, 3, 6]);
    assert_eq!(rt; stream.draw(u64::MAX), 0xed7868263822441d);
}

#[test]
fn choices_take_one_draw(rt: HostRuntime) {
    let tens = [0, 10, 20, 30, 40, 50, 60, 70, 80, 90];
    for (seed, digits) in [(42, [5, 9, 6]), (0, [9, 6, 7]), (u64::MAX, [4, 5, 2])] {
        let mut items = Stream::new(seed);
        let mut indices = Stream::new(seed);
        for digit in digits {
            assert_eq!(rt; items.choose(&tens), Some(digit * 10), "at seed {seed}");
            assert_eq!(rt; indices.choose_index(10), Some(digit), "at seed {seed}");
        }
    }
}

// One of one takes a draw, and one of none takes none.
#[test]
fn draws_after_choices_of_one_and_of_none(rt: HostRuntime) {
    let mut stream = Stream::new(42);
    assert_eq!(rt; stream.choose(&["only"]), Some("only"));
    assert_eq!(rt; stream.choose_index(0), None);
    assert_eq!(rt; stream.choose::<u8>(&[]), None);
    assert_eq!(rt; stream.draw(u64::MAX), 0xba1d333083d2f293);
}

#[test]
fn texts_are_shuffled_as_numbers_are(rt: HostRuntime) {
    let mut list = ["zero", "one", "two"];
    Stream::new(0).shuffle(&mut list);
    assert_eq!(rt; list, ["two", "zero", "one"]);
}

#[test]
fn a_copy_gives_the_words_of_its_stream(rt: HostRuntime) {
    let mut stream = Stream::new(42);
    let _word = stream.draw(10);
    let mut copy = stream.copy();
    assert_eq!(rt; copy.draw(u64::MAX), 0xba1d333083d2f293);
    assert_eq!(rt; stream.draw(u64::MAX), 0xba1d333083d2f293);
}
