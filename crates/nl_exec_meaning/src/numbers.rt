//! Numbers of the inputs of a procedure, of the names of a block's head, or of how many items come before others.
ghost use Rattle.std.specs.Prelude.{◌≡◌, [], ◌∷◌, ◌++◌, IfOk, OnOk, replicate, slice_get};
ghost use Rattle.nl_exec_meaning.specs.Arrows.{raised};

use nl_fixed::NoMemory;
use std::alloc::Global;
use std::marker::Model;

/// Numbers, in order.
#[derive(Drop)]
pub struct Numbers {
    list: Vec<u32>,
}

impl Model for Numbers {
    ghost use Rattle.std.specs.Prelude.{ℕ, List};

    ghost Value = { List ℕ };

    ghost view = { λ numbers. numbers.list.items };
}

impl Numbers {
    /// No numbers.
    pub fn empty(alloc: Global) -> Numbers
        ensures { result ≡ [] }
    {
        Numbers {
            list: Vec::new(alloc),
        }
    }

    /// The number 0, so many times.
    pub fn zeros(alloc: Global, count: usize) -> Result<Numbers, NoMemory>
        ensures { IfOk result (λ numbers. numbers ≡ replicate count 0) }
    {
        let mut numbers = Numbers::empty(alloc);
        for _ in 0..count {
            numbers.push(alloc, 0)?;
        }
        Ok(numbers)
    }

    /// Raises the number at a place by 1. A number past 2^32 is told as want of memory.
    pub fn raise(&mut self, at: usize) -> Result<(), NoMemory>
        ensures { OnOk result (self.new ≡ raised at self.old) }
    {
        let Some(number) = self.get(at) else {
            return Ok(());
        };
        let Some(more) = number.checked_add(1) else {
            return Err(NoMemory);
        };
        self.list[at] = more;
        Ok(())
    }

    /// Appends a number.
    pub fn push(&mut self, _alloc: Global, number: u32) -> Result<(), NoMemory>
        ensures { OnOk result (self.new ≡ self.old ++ number ∷ []) }
    {
        self.list.push(number)?;
        Ok(())
    }

    /// The number at a place.
    #[inline]
    pub fn get(&self, at: usize) -> Option<u32>
        ensures { result ≡ slice_get self.now at }
    {
        self.list.get(at).copied()
    }

    /// The numbers, in order.
    #[inline]
    pub fn as_slice(&self) -> &[u32]
        ensures { result.now ≡ self.now }
    {
        self.list.as_slice()
    }

    /// The same numbers again.
    pub fn copy(&self, alloc: Global) -> Result<Numbers, NoMemory>
        ensures { IfOk result (λ again. again ≡ self.now) }
    {
        let list = self.list.as_slice().to_vec(alloc)?;
        Ok(Numbers { list })
    }
}
