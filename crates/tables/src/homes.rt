//! Workers by their numbers: a call's, a process's, and the side that a message comes from.

ghost use Rattle.std.specs.Prelude.{◌≡◌, ◌<◌, ◌≤◌, MatchOption};
ghost use Rattle.machine.specs.Machine.{home as home_of, side as side_of};

use machine::plan::Plan;
use pool::OUTSIDE_SIDE;
use sequential::event::Event;

/// The number of one of the eight workers that the tables have. A plan may have fewer: `of` asks it.
#[derive(Clone, Copy, PartialEq, Eq, Debug)]
pub struct WorkerId {
    pub index: u8,
    ghost low: { index < 8 },
}

impl WorkerId {
    /// The worker of this number, if the plan has one.
    pub fn of(plan: &Plan, number: u64) -> Option<WorkerId>
        ensures { MatchOption result (plan.now.workers ≤ number)
            (λ w. (w.index ≡ number) × (number < plan.now.workers)) }
    {
        if number < plan.workers as u64 {
            Some(WorkerId {
                index: number as u8,
            })
        } else {
            None
        }
    }
}

/// The worker of a process, 0 where there is no such process.
// 0 and no `Option`, as the definition has it: the events in the tables are of processes that have a worker.
#[tactic(auto, using(crate::proofs::LowHomes::home_low))]
pub fn home_of(plan: &Plan, process: u8) -> WorkerId
    ensures { result.index ≡ home_of plan.now process }
{
    WorkerId {
        index: plan.home.get(process as usize).copied().unwrap_or(0),
    }
}

/// The side that a message comes from: its sender's worker, or the outside.
pub fn side_of(plan: &Plan, event: &Event) -> u8
    ensures side { result ≡ side_of plan.now event.now }
    ensures nine { result < 9 }
{
    if event.sender == Event::OUTSIDE {
        OUTSIDE_SIDE
    } else {
        home_of(plan, event.sender).index
    }
}
