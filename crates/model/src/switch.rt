//! A switch: each process is a port that serves cells one at a time; a cell's payload is the hops it has left.

ghost use Rattle.std.specs.Prelude.{◌≡◌, ◌≤◌, true, false, ◌&&◌, MatchResult};
ghost use Rattle.model.specs.Formulas.{forwarded, service_fits, size_fits, switch as switch_rules};
ghost use Rattle.std.proofs.Math.Nat.{mod-mod};
ghost use Rattle.std.proofs.Common.{rules};

use crate::Model as ProcessModel;
use crate::limits::{LATEST, OutsideLimits, Size};
use crate::reaction::{Few, Reaction, Want};
use crate::state::State;

const MOST_SERVICE: u64 = 1000;

const MOST_HOPS: u64 = 255;

// Why a port does not serve a cell, by its fault's code.
#[derive(Clone, Copy)]
enum SwitchFault {
    TooLate = 1,
    TooManyHops = 2,
}

/// A switch of some ports with one service time.
#[derive(Clone, Copy)]
pub struct Switch {
    size: Size,
    service: u64,
    ghost serves: { (1 ≤ service) × (service ≤ 1000) },
}

impl Switch {
    /// A switch of 1 to 32 ports with a service time of 1 to 1,000; other values are refused.
    pub fn new(size: u64, service: u64) -> Result<Switch, OutsideLimits>
        ensures { MatchResult result (λ m. (m.size.value ≡ size) × (m.service ≡ service))
            (λ _. size_fits size && service_fits service ≡ false) }
    {
        let size = Size::try_from(size)?;
        if service < 1 || service > MOST_SERVICE {
            return Err(OutsideLimits);
        }
        Ok(Switch { size, service })
    }

    // A cell with hops left goes to the next port, cyclically, one hop fewer.
    fn forward(&self, process: u64, delay: u64, hops: u64) -> Few<Want>
        ensures { result ≡ forwarded self.now.size.value process delay hops }
    {
        if hops == 0 {
            return Few::Nothing;
        }
        let size = self.size.value as u64;
        Few::One(Want {
            receiver: (process % size + 1) % size,
            delay,
            payload: hops - 1,
        })
    }
}

impl ProcessModel for Switch {
    ghost meaning = { λ m. switch_rules m.size.value m.service };

    ghost sized = { Prim.search rules };

    ghost coded = { Prim.search rules };

    ghost starts_cyclic = { Prim.search rules };

    // a process number modulo the size, taken modulo the size again, is itself
    ghost reacts_cyclic = { λ m p s t x. rw mod-mod };

    fn size(&self) -> u8 {
        self.size.value
    }

    fn initial(&self, process: u64) -> State {
        State::ZERO
    }

    fn react(&self, process: u64, state: &State, time: u64, payload: u64) -> Reaction {
        if payload > MOST_HOPS {
            return Reaction::Fault(SwitchFault::TooManyHops as u8);
        }
        let start = time.max(state.w0);
        if start > LATEST - self.service {
            return Reaction::Fault(SwitchFault::TooLate as u8);
        }
        let departure = start + self.service;
        let next = State {
            w0: departure,
            w1: state.w1.wrapping_add(1),
            w2: state.w2.wrapping_add(start - time),
            ..*state
        };
        Reaction::Next(next, self.forward(process, departure - time, payload))
    }
}
