//! A model of eight processes that always reacts alike.

ghost use Rattle.std.specs.Prelude.{◌≡◌, ℕ, ◌≤◌};
ghost use Rattle.model.specs.Formulas.{zeros};
ghost use Rattle.model.specs.declared.reaction.Reaction.TheVariants.{Fault};
ghost use Rattle.std.proofs.Common.{rules};

use model::Model as ProcessModel;
use model::reaction::{Few, Reaction, Want};
use model::state::State;

#[derive(Drop)]
pub struct Fixed {
    reaction: Reaction,
    ghost coded: { (c : ℕ) → reaction ≡ Fault c → (1 ≤ c) × (c ≤ 255) },
}

impl ProcessModel for Fixed {
    ghost meaning = { λ m. record { size = 8; initial = λ p. zeros; reaction = λ p s t x. m.reaction } };

    ghost sized = { Prim.search rules };

    ghost coded = { Prim.search rules };

    ghost starts_cyclic = { Prim.search rules };

    ghost reacts_cyclic = { Prim.search rules };

    fn size(&self) -> u8 {
        8
    }

    fn initial(&self, process: u64) -> State {
        State::ZERO
    }

    fn react(&self, process: u64, state: &State, time: u64, payload: u64) -> Reaction {
        self.reaction
    }
}

// A model that always wants these sends.
pub fn wanting(wants: Few<Want>) -> Fixed {
    Fixed {
        reaction: Reaction::Next(
            State {
                w0: 1,
                w1: 2,
                w2: 3,
                w3: 4,
            },
            wants,
        ),
    }
}

// A model that always gives its fault 9.
pub fn faulty() -> Fixed {
    Fixed {
        reaction: Reaction::Fault(9),
    }
}
