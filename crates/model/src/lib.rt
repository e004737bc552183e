//! Models: the processes that are simulated, what a model means, and the two that come with the product.

#![tactic(auto)]

pub mod limits;
pub mod phold;
pub mod reaction;
pub mod state;
pub mod switch;

ghost use Rattle.std.specs.Prelude.{◌≡◌, ℕ, ◌%◌, ◌≤◌};
ghost use Rattle.model.specs.declared.state.State.{State as Words};
ghost use Rattle.model.specs.declared.reaction.Reaction.TheVariants.{Fault};
ghost use Rattle.model.specs.Meaning.{Meaning};

use crate::reaction::Reaction;
use crate::state::State;

/// A model answers by its meaning alone; asking alters nothing.
/// A file with an `impl` imports it as `ProcessModel`, since the language has a trait `Model` of its own.
pub trait Model {
    // its size, the initial state of each process, and its reaction
    ghost meaning: { Self → Meaning };

    fn size(&self) -> u8
        ensures { result ≡ (meaning self.now).size };

    fn initial(&self, process: u64) -> State
        ensures { result ≡ (meaning self.now).initial process };

    // four values and no event: a model is not told who sent it
    fn react(&self, process: u64, state: &State, time: u64, payload: u64) -> Reaction
        ensures { result ≡ (meaning self.now).reaction process state.now time payload };

    // a model has 1 to 32 processes
    ghost sized: { (m : Self) → (1 ≤ (meaning m).size) × ((meaning m).size ≤ 32) };

    // fault codes are 1 to 255
    ghost coded: { (m : Self) (p : ℕ) (s : Words) (t x c : ℕ) → (meaning m).reaction p s t x ≡ Fault c →
        (1 ≤ c) × (c ≤ 255) };

    // a process number counts modulo the size
    ghost starts_cyclic: { (m : Self) (p : ℕ) → (meaning m).initial p ≡ (meaning m).initial (p % (meaning m).size) };

    ghost reacts_cyclic: { (m : Self) (p : ℕ) (s : Words) (t x : ℕ) →
        (meaning m).reaction p s t x ≡ (meaning m).reaction (p % (meaning m).size) s t x };
}
