//! The executive's state without its model and its pool: plain tables, and what becomes of them.

#![tactic(auto)]

pub mod absorb;
pub mod collect;
pub mod homes;
pub mod parts;
pub mod rollback;
pub mod round;
pub mod start;
pub mod step;

use choice::records::Records;
use inbox::Worker;
use model::limits::PROCESSES;
use pool::WORKERS;
use sequential::event::Process;

/// The tables: all of a machine but where the buffers are.
// The plan is handed to each call and is no field: it is the executive's, and the definitions have it apart.
// Clauses hold over any places, which are the pool's to say; `machine_of` puts the two together.
// What becomes of `posted` is said by itself too, so that a caller reads it off without a call's definition.
#[derive(Drop)]
pub struct Tables {
    pub records: Records,
    pub workers: [Worker; WORKERS],
    pub processes: [Process; PROCESSES],
    pub posted: u64,
    pub floor: u64,
    // no value goes with it: floors and reports are there outside of a round too
    pub rounding: bool,
    pub gvt: u64,
}
