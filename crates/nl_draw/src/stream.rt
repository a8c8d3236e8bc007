//! The stream of a run's words, and what is drawn from it.
//!
//! The words are those of Pcg32, a generator of M. E. O'Neill's PCG family, on its stream 54. How draws
//! and shuffles are made of words is this project's own choice, and no claim on NetLogo's own generator.
//! No call takes memory, and a draw and each step of a shuffle take constant time.
ghost use Rattle.std.specs.Prelude.{◌≡◌, ◌+◌, ◌*◌, ◌^◌, ◌<◌, ◌≤◌, [], Contains, IfSome, MatchOption, IsPermutation};
ghost use Rattle.nl_draw.specs.Stream.{first_state, next_state, word_of, state_after, words_from, drawn, shuffled, chosen, chosen_index};

use rand_core::utils::NextWord;
use rand_pcg::Pcg32;
use std::marker::Model;

/// The number of the generator's stream, the same for every run.
const STREAM: u64 = 54;

/// A random stream, seen by contracts as its state. All that it gives follows from its seed.
#[derive(Drop)]
pub struct Stream {
    generator: Pcg32,
}

impl Model for Stream {
    ghost use Rattle.std.specs.Prelude.{◌≡◌, ℕ};
    ghost use Rattle.nl_draw.specs.Stream.{step_addend};

    ghost Value = { ℕ };

    ghost view = { λ s. s.generator.state };

    ghost invariant = { λ s. s.generator.increment ≡ step_addend };
}

/// Where a stream stood, to which it can be put back.
#[derive(Clone, Copy)]
pub struct Mark {
    state: u64,
}

impl Model for Mark {
    ghost use Rattle.std.specs.Prelude.{ℕ};

    ghost Value = { ℕ };

    ghost view = { λ mark. mark.state };

    ghost inverse = { λ state. record { state = state } };
}

impl Stream {
    /// The stream of a run with this seed.
    #[tactic(auto, using(crate::proofs::Words::started_state))]
    pub fn new(seed: u64) -> Stream
        ensures { result ≡ first_state seed }
    {
        Stream {
            generator: Pcg32::new(seed, STREAM),
        }
    }

    /// Draws a number below `n`: the remainder by `n` of two words, of which the first is the high half.
    #[tactic(auto, unfolding(crate::specs::Stream::drawn))]
    pub fn draw(&mut self, n: u64) -> u64
        requires { 1 ≤ n }
        ensures value { result ≡ (drawn n self.old).0 }
        ensures state { self.new ≡ (drawn n self.old).1 }
        ensures below { result < n }
    {
        self.two_words() % n
    }

    /// Puts a list into a random order: each index `i`, from the last one down to 1, changes with the
    /// one that `draw(i + 1)` gives. A list of none or one draws nothing.
    pub fn shuffle<T>(&mut self, list: &mut [T])
        ensures order { list.new ≡ (shuffled list.old self.old).0 }
        ensures state { self.new ≡ (shuffled list.old self.old).1 }
        ensures permutation { IsPermutation list.old list.new }
    {
        for i in (1..list.len()).rev() {
            let other = self.draw(i as u64 + 1);
            list.swap(i, other as usize);
        }
    }

    /// Chooses an index among so many by one draw, also where there is only one. Among none there is
    /// none, and nothing is drawn.
    pub fn choose_index(&mut self, length: usize) -> Option<usize>
        ensures index { result ≡ (chosen_index length self.old).0 }
        ensures state { self.new ≡ (chosen_index length self.old).1 }
        ensures below { IfSome result (λ index. index < length) }
    {
        if length == 0 {
            return None;
        }
        Some(self.draw(length as u64) as usize)
    }

    /// Chooses one of a list by one draw, also where there is only one. An empty list gives none, and
    /// nothing is drawn.
    pub fn choose<T: Copy>(&mut self, list: &[T]) -> Option<T>
        ensures choice { result ≡ (chosen list.now self.old).0 }
        ensures state { self.new ≡ (chosen list.now self.old).1 }
        ensures member { MatchOption result (list.now ≡ []) (Contains list.now) }
    {
        let index = self.choose_index(list.len())?;
        Some(list[index])
    }

    /// Another stream that stands where this one does. Nothing is drawn.
    pub fn copy(&self) -> Stream
        ensures { result ≡ self.now }
    {
        Stream {
            generator: Pcg32::from_state(self.generator.state(), STREAM),
        }
    }

    /// Where the stream stands. Nothing is drawn.
    pub fn save(&self) -> Mark
        ensures { result ≡ self.now }
    {
        Mark {
            state: self.generator.state(),
        }
    }

    /// Puts the stream back: the words to come are those that were to come at the mark.
    pub fn restore(&mut self, mark: Mark)
        ensures { self.new ≡ mark }
    {
        self.generator = Pcg32::from_state(mark.state, STREAM);
    }

    fn two_words(&mut self) -> u64
        ensures value { result ≡ words_from self.old 0 * 2 ^ 32 + words_from self.old 1 }
        ensures state { self.new ≡ state_after 2 self.old }
    {
        let high = self.word();
        let low = self.word();
        (u64::from(high) << 32) | u64::from(low)
    }

    fn word(&mut self) -> u32
        ensures word { result ≡ word_of self.old }
        ensures state { self.new ≡ next_state self.old }
    {
        self.generator.next_word()
    }
}
