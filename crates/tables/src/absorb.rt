//! Absorbing: the oldest entry of an inbox comes in, or is annihilated.

ghost use Rattle.std.specs.Prelude.{◌≡◌, List, slice_set};
ghost use Rattle.pool.specs.Lanes.{Lanes};
ghost use Rattle.pool.specs.declared.place.Place.{Place};
ghost use Rattle.machine.specs.Machine.{popped as leaves, first, worker as worker_at, arrived as arrives};
ghost use Rattle.machine.specs.Machine.{annihilated as annihilates, absorbed_to, returned};
ghost use Rattle.tables.specs.Meaning.{machine_of};
ghost use Rattle.tables.specs.Takes.{Takes};

use crate::Tables;
use crate::homes::WorkerId;
use crate::rollback::pending_again;
use choice::kinds::Latest;
use machine::message::Phase;
use machine::plan::Plan;
use sequential::event::Event;

/// What absorbing an entry came to: the events undone, the messages cancelled, and of a message that was annihilated
/// the buffer, which is to return to the pool.
#[derive(Clone, Copy, PartialEq, Eq, Debug)]
pub struct Taken {
    pub undone: u64,
    pub cancelled: u64,
    pub freed: Option<Freed>,
}

/// A buffer that is empty, and the event that it held.
#[derive(Clone, Copy, PartialEq, Eq, Debug)]
pub struct Freed {
    pub buffer: u8,
    pub event: Event,
}

impl Tables {
    // The oldest buffer leaves the worker's inbox.
    #[tactic(auto, unfolding(machine::specs::Machine::popped))]
    pub(crate) fn take(&mut self, worker: WorkerId) -> Option<u8>
        ensures first { (pl : List Place) → result ≡ first (worker_at (machine_of self.old pl) worker.index).inbox }
        ensures machine { (pl : List Place) → machine_of self.new pl ≡ leaves worker.index (machine_of self.old pl) }
    {
        self.workers[worker.index as usize].inbox.pop()
    }

    // The message in the buffer comes in: the events undone, and the messages cancelled.
    pub(crate) fn arrive(&mut self, plan: &Plan, worker: WorkerId, buffer: u8) -> (u64, u64)
        ensures { (pl : List Place) →
            absorbed_to (machine_of self.new pl) 0 result.0 result.1
            ≡ arrives plan.now worker.index buffer (machine_of self.old pl) }
    {
        let pending = pending_again(self.records.at(buffer));
        let later = Latest {
            process: pending.event.process,
            mark: pending.event,
            through: false,
        };
        let counts = self.roll_back(plan, worker, &later);
        self.put(buffer, &pending);
        counts
    }

    // The cancelled message in the buffer is annihilated: its event, the events undone, and the messages cancelled.
    pub(crate) fn annihilate(
        &mut self,
        plan: &Plan,
        worker: WorkerId,
        buffer: u8,
    ) -> (Event, u64, u64)
        ensures { (l : Lanes) (pl : List Place) →
            absorbed_to (machine_of self.new (slice_set pl buffer (returned l plan.now result.0))) 1 result.1 result.2
            ≡ annihilates l plan.now worker.index buffer (machine_of self.old pl) }
    {
        let message = self.records.at(buffer);
        let phase = message.phase;
        let event = message.event;
        // a `match`, and no `==`: that is a call, whose answer a proof would turn back into the phase
        match phase {
            Phase::Done => {
                let through = Latest {
                    process: event.process,
                    mark: event,
                    through: true,
                };
                let (undone, cancelled) = self.roll_back(plan, worker, &through);
                (self.wipe(buffer), undone, cancelled)
            }
            _ => (self.wipe(buffer), 0, 0),
        }
    }

    /// The oldest entry of the worker's inbox is absorbed, if it has one.
    pub fn absorb(&mut self, plan: &Plan, worker: WorkerId) -> Option<Taken>
        ensures posted { self.new.posted ≡ self.old.posted }
        ensures does { Takes plan.now worker.index self.old self.new result }
    {
        let buffer = self.take(worker)?;
        if self.records.at(buffer).cancelled {
            let (event, undone, cancelled) = self.annihilate(plan, worker, buffer);
            Some(Taken {
                undone,
                cancelled,
                freed: Some(Freed { buffer, event }),
            })
        } else {
            let (undone, cancelled) = self.arrive(plan, worker, buffer);
            Some(Taken {
                undone,
                cancelled,
                freed: None,
            })
        }
    }
}
