//! The laws of the random stream, called, and words that come again after a mark.

use nl_draw::Stream;
use nl_draw::laws::{choices_are_members, put_back_after, shuffles_permute};

#[test]
fn laws_hold_of_lists_of_texts() {
    shuffles_permute::<&str, u8>();
    choices_are_members::<&str, u8>();
}

#[test]
fn words_come_again_after_work_that_drew(rt: HostRuntime) {
    let mut stream = Stream::new(42);
    let digit = put_back_after(&mut stream, |inner: &mut Stream| {
        inner.shuffle(&mut [1, 2]);
        inner.draw(10)
    });
    assert_eq!(rt; digit, 9);
    assert_eq!(rt; stream.draw(u64::MAX), 0xa15c02b77b47f409);
}
