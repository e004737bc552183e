//! What a process does on an event.

ghost use Rattle.std.specs.Prelude.{◌≡◌};
ghost use Rattle.model.specs.Meaning.{many};

use crate::state::State;

/// None, one or two: as many as one event may send. The only place that says how many.
// An enum and no `ArrayVec`, whose bound would be a fact apart; by cases where it is used, since an iterator of its
// own is longer than all those cases, and owes an invariant at each loop.
#[derive(Clone, Copy, PartialEq, Eq, Debug)]
pub enum Few<T> {
    Nothing,
    One(T),
    Two(T, T),
}

impl<T> Few<T> {
    pub fn len(&self) -> u64
        ensures { result ≡ many self.now }
    {
        match self {
            Few::Nothing => 0,
            Few::One(_) => 1,
            Few::Two(_, _) => 2,
        }
    }
}

/// A send that a reaction wants.
#[derive(Clone, Copy, PartialEq, Eq, Debug)]
pub struct Want {
    pub receiver: u64,
    pub delay: u64,
    pub payload: u64,
}

/// What a process does on an event: a fault with its code, or a new state and the wanted sends.
// No `Result`: both are what a model answers, and the one `?` over it would spare a `match` of two arms.
#[derive(Clone, Copy, PartialEq, Eq, Debug)]
pub enum Reaction {
    Fault(u8),
    Next(State, Few<Want>),
}
