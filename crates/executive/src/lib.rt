//! The executive: a setup of a model and a pool, the running executive with its six calls, and runs of calls.

#![tactic(auto)]

pub mod calls;
mod draws;
pub mod runs;
pub mod start;

ghost use Rattle.std.specs.Prelude.{◌≡◌};
ghost use Rattle.executive.specs.World.{IsReached, world_of};
ghost use Rattle.law.specs.Law.{Proper};
ghost use Rattle.tables.specs.Meaning.{machine_of};

use machine::plan::Plan;
use model::Model;
use pool::Pool;
use tables::Tables;

/// A model and a new pool, with what a run is set up with.
#[derive(Drop)]
pub struct Setup<M: Model, P: Pool> {
    pub(crate) model: M,
    pub(crate) plan: Plan,
    pub(crate) pool: P,
    // the pool is new
    ghost unused: { P.places pool ≡ P.lanes.full },
    // the law of runs holds in the world that this sets up
    ghost proper: { Proper (world_of (M.meaning model) P.lanes plan) },
}

/// A running executive: its tables and its pool together are a machine.
#[derive(Drop)]
pub struct Executive<M: Model, P: Pool> {
    pub(crate) model: M,
    pub(crate) pool: P,
    pub(crate) plan: Plan,
    pub(crate) tables: Tables,
    // the law of runs holds in its world
    ghost proper: { Proper (world_of (M.meaning model) P.lanes plan) },
    // calls made from the start have led to this machine
    ghost reached: { ∥ IsReached (world_of (M.meaning model) P.lanes plan) (machine_of tables (P.places pool)) ∥₁ },
}
