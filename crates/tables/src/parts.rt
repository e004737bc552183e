//! One part of the tables written: an inbox, a floor, a record, a process.

ghost use Rattle.std.specs.Prelude.{◌≡◌, ◌<◌, List};
ghost use Rattle.pool.specs.declared.place.Place.{Place};
ghost use Rattle.machine.specs.Machine.{enter as enters, lower as lowers, with_message, with_process, marked};
ghost use Rattle.machine.specs.Machine.{at as message_at};
ghost use Rattle.tables.specs.Meaning.{machine_of};

use crate::Tables;
use crate::homes::WorkerId;
use machine::message::Message;
use sequential::event::Process;

impl Tables {
    // The buffer enters the worker's inbox.
    #[tactic(auto, unfolding(machine::specs::Machine::enter))]
    pub(crate) fn enter(&mut self, worker: WorkerId, buffer: u8)
        ensures { (pl : List Place) →
            machine_of self.new pl ≡ enters worker.index buffer (machine_of self.old pl) }
    {
        self.workers[worker.index as usize].inbox.push(buffer);
    }

    // The worker's floor is lowered to the time.
    #[tactic(auto, unfolding(machine::specs::Machine::lower))]
    pub(crate) fn lower(&mut self, worker: WorkerId, time: u64)
        ensures { (pl : List Place) →
            machine_of self.new pl ≡ lowers worker.index time (machine_of self.old pl) }
    {
        let row = &mut self.workers[worker.index as usize];
        row.floor = row.floor.min(time);
    }

    // The buffer holds the message.
    pub(crate) fn put(&mut self, buffer: u8, message: &Message)
        requires { message.now.event.process < 32 }
        ensures { (pl : List Place) →
            machine_of self.new pl ≡ with_message buffer message.now (machine_of self.old pl) }
    {
        self.records.put(buffer, message);
    }

    // The message in the buffer is cancelled.
    pub(crate) fn mark(&mut self, buffer: u8)
        ensures { (pl : List Place) →
            machine_of self.new pl
            ≡ with_message buffer (marked (message_at (machine_of self.old pl) buffer)) (machine_of self.old pl) }
    {
        self.records.mark(buffer);
    }

    // (The sequential run has the like of its own: three lines are no plainer when shared.)
    // The process of this number, if there is one, stands as `process`.
    pub(crate) fn put_process(&mut self, number: u8, process: Process)
        ensures { (pl : List Place) →
            machine_of self.new pl ≡ with_process number process (machine_of self.old pl) }
    {
        // tried `get_mut`: when its loan is over, a proof knows the length and no element
        if (number as usize) < self.processes.len() {
            self.processes[number as usize] = process;
        }
    }
}
