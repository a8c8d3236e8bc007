//! Laws of the random stream, each the contract of a function.
ghost use Rattle.std.specs.Prelude.{◌≡◌, ℕ};
ghost use Rattle.std.specs.Fn.{FnOnceReturnsAtMut};
ghost use Rattle.nl_draw.specs.Stream.{first_state};
ghost use Rattle.nl_draw.specs.Laws.{SameWords, WordsArePcg32, DrawsAreBelow, ShufflesPermute, ShufflesMap, ShortListsDrawNothing, ChoicesAreMembers, ChoicesAreAtIndices, ChoicesMap};

use crate::stream::Stream;

/// The words are those of PCG's generator of 32-bit words, on its stream 54.
pub fn words_are_pcg32()
    ensures { WordsArePcg32 }
{}

/// What is drawn below a number is below it, whatever the words.
pub fn draws_are_below()
    ensures { DrawsAreBelow }
{}

/// A shuffle changes the order of a list and nothing else, and it goes by indices alone, whatever the items are.
pub fn shuffles_permute<T, U>()
    ensures permute { ShufflesPermute T }
    ensures map { ShufflesMap T U }
    ensures short { ShortListsDrawNothing T }
{}

/// What is chosen is one of the list, that at the chosen index; only an empty list gives none.
pub fn choices_are_members<T, U>()
    ensures members { ChoicesAreMembers T }
    ensures indices { ChoicesAreAtIndices T }
    ensures map { ChoicesMap T U }
{}

/// Two streams of one seed, which give the same words however far they are followed.
pub fn twins(seed: u64) -> (Stream, Stream)
    ensures first { result.0 ≡ first_state seed }
    ensures second { result.1 ≡ first_state seed }
    ensures words { SameWords result.0 result.1 }
{
    (Stream::new(seed), Stream::new(seed))
}

/// Does some work with a stream and puts the stream back, so that the words to come are those that
/// were to come before the work, whatever it drew.
pub fn put_back_after<T, F: FnOnce(&mut Stream) -> T>(stream: &mut Stream, work: F) -> T
    requires { F.IsAlwaysCallable work }
    ensures worked { (after : ℕ) × FnOnceReturnsAtMut F.FnOnce work stream.old result after }
    ensures words { SameWords stream.new stream.old }
{
    let mark = stream.save();
    let answer = work(stream);
    stream.restore(mark);
    answer
}
