//! Inboxes, first in, first out; and a worker, which holds one.

#![tactic(auto)]

ghost use Rattle.std.specs.Prelude.{◌≡◌, ◌<◌, [], length, slice_index};
ghost use Rattle.inbox.specs.Queue.{entered, first, rest};

mod worker;

use std::marker::Model;
pub use worker::Worker;

// How many buffers an inbox can hold: all there are. This crate rests on no other, so it says the number itself.
const ROOM: usize = 256;

/// At most 256 buffers, the oldest in the first slot, the others behind it.
// An array and a length, as an inbox allocates nothing. The slots that hold no buffer are 0, and the oldest buffer
// lies in the first: so the buffers say all of an inbox, and it is `Copy`. Of a ring they would not: a list does not
// say where it begins.
#[derive(Clone, Copy)]
pub struct Inbox {
    slots: [u8; ROOM],
    len: u16,
}

// Clauses see the buffers, oldest first.
impl Model for Inbox {
    ghost use Rattle.std.specs.Prelude.{ℕ, List, length, take};
    ghost use Rattle.inbox.specs.Slots.{slots_of, IsFilled, filled, length-filled};

    ghost Value = { List ℕ };

    ghost view = { λ q. take q.len q.slots };

    ghost invariant = { λ q. IsFilled q.slots q.len };

    // the buffers say where each lies, and how many there are
    ghost inverse = { λ bs. record { slots = slots_of bs; len = length bs } };

    ghost inverse_ok = { λ q f i. record {
      slots = filled q.slots q.len f i;
      len = length-filled q.slots q.len f i;
    } };
}

impl Inbox {
    pub fn new() -> Inbox
        ensures { result ≡ [] }
    {
        Inbox {
            slots: [0; ROOM],
            len: 0,
        }
    }

    /// The same buffers once more.
    pub fn copied(&self) -> Inbox
        ensures { result ≡ self.now }
    {
        Inbox {
            slots: self.slots,
            len: self.len,
        }
    }

    /// A buffer comes in last, if there is room.
    pub fn push(&mut self, buffer: u8)
        ensures { self.new ≡ entered buffer self.old }
    {
        if (self.len as usize) < ROOM {
            self.slots[self.len as usize] = buffer;
            self.len += 1;
        }
    }

    /// The oldest buffer leaves.
    pub fn pop(&mut self) -> Option<u8>
        ensures first { result ≡ first self.old }
        ensures rest { self.new ≡ rest self.old }
    {
        if self.len == 0 {
            return None;
        }
        let b = self.slots[0];
        self.len -= 1;
        self.slots.copy_within(1..=self.len as usize, 0);
        self.slots[self.len as usize] = 0;
        Some(b)
    }

    pub fn len(&self) -> u32
        ensures { result ≡ length self.now }
    {
        self.len as u32
    }

    /// The buffer that `i` older ones are in front of.
    pub fn get(&self, i: u32) -> u8
        requires { i < length self.now }
        ensures { result ≡ slice_index self.now i }
    {
        self.slots[i as usize]
    }
}
