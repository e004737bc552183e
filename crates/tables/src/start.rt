//! The tables before any call.

ghost use Rattle.std.specs.Prelude.{◌≡◌, List, replicate};
ghost use Rattle.pool.specs.declared.place.Place.{Place};
ghost use Rattle.machine.specs.Machine.{started_with, clearing, idle};
ghost use Rattle.tables.specs.Meaning.{machine_of};

use crate::Tables;
use choice::records::Records;
use inbox::{Inbox, Worker};
use machine::plan::Plan;
use model::limits::PROCESSES;
use pool::WORKERS;
use sequential::event::Process;

// A worker with nothing in its inbox, and its floor at the end.
pub(crate) fn fresh_worker(end: u64) -> Worker
    ensures { result ≡ clearing end idle }
{
    Worker {
        inbox: Inbox::new(),
        floor: end,
        report: None,
    }
}

pub(crate) fn fresh_workers(end: u64) -> [Worker; WORKERS]
    ensures { result ≡ replicate 8 (clearing end idle) }
{
    std::array::from_fn(|_| fresh_worker(end))
}

impl Tables {
    /// The tables before any call, over the processes as the model has them first.
    pub fn start(plan: &Plan, processes: [Process; PROCESSES]) -> Tables
        ensures posted { result.posted ≡ 0 }
        ensures machine { (pl : List Place) → machine_of result pl ≡ started_with plan.now processes pl }
    {
        let end = plan.limits.end;
        Tables {
            records: Records::new(),
            workers: fresh_workers(end),
            processes,
            posted: 0,
            floor: end,
            rounding: false,
            gvt: 0,
        }
    }
}
