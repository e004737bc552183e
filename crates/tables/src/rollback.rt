//! Cancelling, undoing and rolling back.

ghost use Rattle.std.specs.Prelude.{◌≡◌, ◌≤◌, List, slice_index_or};
ghost use Rattle.model.specs.Meaning.{many};
ghost use Rattle.pool.specs.declared.place.Place.{Place};
ghost use Rattle.machine.specs.Machine.{cancelled as cancels, restored, undone as undoes, blank, latest as latest_of};
ghost use Rattle.machine.specs.Machine.{past, pending_again, rollback, rolled_to};
ghost use Rattle.tables.specs.Meaning.{machine_of};

use crate::Tables;
use crate::homes::{WorkerId, home_of};
use choice::kinds::Latest;
use machine::message::{Message, Phase};
use machine::plan::Plan;
use model::reaction::Few;
use pool::BUFFERS;

// The message is pending again: its event is kept, and whether it is cancelled.
pub(crate) fn pending_again(message: &Message) -> Message
    ensures { result ≡ pending_again message.now }
{
    Message {
        phase: Phase::Pending,
        cancelled: message.cancelled,
        event: message.event,
        ..Message::EMPTY
    }
}

impl Tables {
    // The worker cancels the message in the buffer: unless in transit, it enters its receiver's inbox as a notice.
    pub(crate) fn cancel(&mut self, plan: &Plan, worker: WorkerId, buffer: u8)
        ensures { (pl : List Place) →
            machine_of self.new pl ≡ cancels plan.now worker.index buffer (machine_of self.old pl) }
    {
        let message = self.records.at(buffer);
        let phase = message.phase;
        let time = message.event.time;
        let process = message.event.process;
        self.mark(buffer);
        self.lower(worker, time);
        // a `match`, and no `==`: that is a call, whose answer a proof would turn back into the phase
        match phase {
            Phase::Transit => {}
            _ => self.enter(home_of(plan, process), buffer),
        }
    }

    // The event in the buffer is pending again, and its process as before it.
    pub(crate) fn restore(&mut self, buffer: u8)
        ensures { (pl : List Place) → machine_of self.new pl ≡ restored buffer (machine_of self.old pl) }
    {
        let message = self.records.at(buffer);
        let pending = pending_again(message);
        let snapshot = message.snapshot;
        self.put_process(pending.event.process, snapshot);
        self.put(buffer, &pending);
    }

    // The event in the buffer is undone: how many messages were cancelled.
    pub(crate) fn undo(&mut self, plan: &Plan, worker: WorkerId, buffer: u8) -> u64
        ensures machine { (pl : List Place) →
            machine_of self.new pl ≡ undoes plan.now worker.index buffer (machine_of self.old pl) }
        ensures count { result ≡ many (slice_index_or self.old.records buffer blank).sent }
        ensures few { result ≤ 2 }
    {
        let sent = self.records.at(buffer).sent;
        self.restore(buffer);
        // the cases as they are: a `for` over them would need an invariant where three cases need none
        match sent {
            Few::Nothing => 0,
            Few::One(x) => {
                self.cancel(plan, worker, x);
                1
            }
            Few::Two(x, y) => {
                self.cancel(plan, worker, x);
                self.cancel(plan, worker, y);
                2
            }
        }
    }

    // The latest done event of a process past the mark.
    #[tactic(auto, unfolding(machine::specs::Machine::foremost))]
    pub(crate) fn latest(&self, choice: &Latest) -> Option<u8>
        ensures { (pl : List Place) →
            result ≡ latest_of choice.now.process (past choice.now.through choice.now.mark)
            (machine_of self.now pl) }
    {
        self.records.latest(choice)
    }

    // The done events of a process past the mark are undone, latest first: how many, and how many messages were
    // cancelled.
    // two counts as a pair; `Taken` names them
    pub(crate) fn roll_back(&mut self, plan: &Plan, worker: WorkerId, choice: &Latest) -> (u64, u64)
        ensures { (pl : List Place) →
            rolled_to (machine_of self.new pl) result.0 result.1
            ≡ rollback plan.now worker.index choice.now.process (past choice.now.through choice.now.mark)
            (machine_of self.old pl) }
    {
        let mut undone = 0u64;
        let mut cancelled = 0u64;
        // not `while let`: the number of buffers bounds the turns, as in the definition
        for _ in 0..BUFFERS {
            let Some(b) = self.latest(choice) else {
                break;
            };
            cancelled += self.undo(plan, worker, b);
            undone += 1;
        }
        (undone, cancelled)
    }
}
