//! A synthetic load: every message is sent on, to a process and after a delay that a generator gives.

ghost use Rattle.std.specs.Prelude.{◌≡◌, ◌≤◌, false, MatchResult};
ghost use Rattle.model.specs.Formulas.{phold as phold_rules, size_fits};
ghost use Rattle.std.proofs.Math.Nat.{mod-mod};
ghost use Rattle.std.proofs.Common.{rules};

use crate::Model as ProcessModel;
use crate::limits::{OutsideLimits, Size};
use crate::reaction::{Few, Reaction, Want};
use crate::state::State;

const MULTIPLIER: u64 = 6364136223846793005;

const INCREMENT: u64 = 1442695040888963407;

/// A load of some processes, whose generators start from one seed.
#[derive(Clone, Copy)]
pub struct Phold {
    size: Size,
    seed: u64,
}

impl Phold {
    /// A load of 1 to 32 processes from any seed; another size is refused.
    pub fn new(size: u64, seed: u64) -> Result<Phold, OutsideLimits>
        ensures { MatchResult result (λ m. (m.size.value ≡ size) × (m.seed ≡ seed)) (λ _. size_fits size ≡ false) }
    {
        let size = Size::try_from(size)?;
        Ok(Phold { size, seed })
    }
}

impl ProcessModel for Phold {
    ghost meaning = { λ m. phold_rules m.size.value m.seed };

    ghost sized = { Prim.search rules };

    ghost coded = { Prim.search rules };

    // a process number modulo the size, taken modulo the size again, is itself
    ghost starts_cyclic = { λ m p. rw mod-mod };

    ghost reacts_cyclic = { Prim.search rules };

    fn size(&self) -> u8 {
        self.size.value
    }

    fn initial(&self, process: u64) -> State {
        State {
            w0: self.seed.wrapping_add(process % self.size.value as u64),
            ..State::ZERO
        }
    }

    fn react(&self, process: u64, state: &State, time: u64, payload: u64) -> Reaction {
        let w0 = state.w0.wrapping_mul(MULTIPLIER).wrapping_add(INCREMENT);
        let next = State {
            w0,
            w1: state.w1.wrapping_add(1),
            ..*state
        };
        let receiver = (w0 >> 33) % self.size.value as u64;
        let delay = 1 + (w0 >> 20) % 1000;
        Reaction::Next(
            next,
            Few::One(Want {
                receiver,
                delay,
                payload,
            }),
        )
    }
}
