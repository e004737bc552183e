//! A stack of buffers.

ghost use Rattle.std.specs.Prelude.{◌≡◌, ◌<◌, [], ◌∷◌, ◌++◌, length, replicate, MatchOption};

use crate::BUFFERS;
use std::array;
use std::marker::Model;

/// A stack with room for every buffer there is.
// An array and a height, as a pool allocates nothing. The kit's `ArrayVec` is seen as a record around a list: each fact
// about a shelf's stacks would have to go through it.
#[derive(Drop)]
pub struct Stack {
    buffers: [u8; BUFFERS],
    height: u16,
}

// Clauses see the buffers on it, from the bottom to the top.
impl Model for Stack {
    ghost use Rattle.std.specs.Prelude.{ℕ, ◌≤◌, List, take};

    ghost Value = { List ℕ };

    ghost view = { λ s. take s.height s.buffers };

    ghost invariant = { λ s. s.height ≤ 256 };
}

impl Stack {
    pub fn new() -> Stack
        ensures { result ≡ [] }
    {
        Stack {
            buffers: [0; BUFFERS],
            height: 0,
        }
    }

    pub fn height(&self) -> u16
        ensures { result ≡ length self.now }
    {
        self.height
    }

    pub fn push(&mut self, buffer: u8)
        requires { length self.old < 256 }
        ensures { self.new ≡ self.old ++ buffer ∷ [] }
    {
        self.buffers[self.height as usize] = buffer;
        self.height += 1;
    }

    // Takes the top buffer off, unless the stack is empty.
    pub fn pop(&mut self) -> Option<u8>
        ensures { MatchOption result ((self.old ≡ []) × (self.new ≡ [])) (λ top. self.old ≡ self.new ++ top ∷ []) }
    {
        if self.height == 0 {
            return None;
        }
        let top = self.height - 1;
        self.height = top;
        Some(self.buffers[top as usize])
    }
}

/// Stacks with nothing on them.
pub fn empty_stacks<const N: usize>() -> [Stack; N]
    ensures { result ≡ replicate N [] }
{
    array::from_fn(|_| Stack::new())
}
