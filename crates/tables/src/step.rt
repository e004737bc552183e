//! Sending, posting and stepping.

ghost use Rattle.std.specs.Prelude.{◌≡◌, ◌+◌, ◌^◌, ◌<◌, min, List, slice_index_or, slice_set};
ghost use Rattle.model.specs.Meaning.{many, listed};
ghost use Rattle.pool.specs.declared.place.Place.{Place};
ghost use Rattle.pool.specs.declared.place.Place.TheVariants.{Out};
ghost use Rattle.sequential.specs.Events.{nobody};
ghost use Rattle.machine.specs.Calls.{post_as};
ghost use Rattle.machine.specs.Machine.{sent as sends, sent_all, outs, stepped_by, with_outside, blank};
ghost use Rattle.machine.specs.Machine.{next as next_of};
ghost use Rattle.tables.specs.Meaning.{machine_of};
ghost use Rattle.tables.specs.Pulls.{Aimed};

use crate::Tables;
use crate::homes::{WorkerId, home_of};
use choice::kinds::Next;
use machine::message::{Message, Phase};
use machine::plan::Plan;
use model::reaction::Few;
use sequential::event::{Event, Outcome, Post, Process};

impl Tables {
    // The message is in transit in the buffer.
    pub(crate) fn send(&mut self, plan: &Plan, buffer: u8, event: Event)
        requires { event.process < 32 }
        ensures { (pl : List Place) →
            machine_of self.new (slice_set pl buffer Out) ≡ sends plan.now buffer event (machine_of self.old pl) }
    {
        let coming = Message {
            phase: Phase::Transit,
            event,
            ..Message::EMPTY
        };
        self.put(buffer, &coming);
        self.enter(home_of(plan, event.process), buffer);
    }

    /// A post for the process at the time, into the drawn buffer: its number.
    pub fn post(&mut self, plan: &Plan, buffer: u8, process: u8, time: u64, payload: u64) -> u64
        requires place { process < 32 }
        requires room { self.old.posted + 1 < 2 ^ 64 }
        ensures number { result ≡ self.old.posted }
        ensures posted { self.new.posted ≡ self.old.posted + 1 }
        ensures machine { (pl : List Place) →
            machine_of self.new (slice_set pl buffer Out)
            ≡ with_outside (self.old.posted + 1) (min self.old.floor time)
            (sends plan.now buffer (post_as self.old.posted process time payload) (machine_of self.old pl)) }
    {
        let number = self.posted;
        let floor = self.floor.min(time);
        let event = Post::new(process as u64, time, payload).event(number);
        self.send(plan, buffer, event);
        self.posted = number + 1;
        self.floor = floor;
        number
    }

    // The messages of one event are sent into the drawn buffers, by the worker.
    pub(crate) fn send_few(
        &mut self,
        plan: &Plan,
        worker: WorkerId,
        buffers: Few<u8>,
        events: &Few<Event>,
    )
        requires aimed { Aimed events.now }
        requires many { many buffers ≡ many events.now }
        ensures { (pl : List Place) →
            machine_of self.new (outs (listed buffers) pl)
            ≡ sent_all plan.now worker.index (listed buffers) (listed events.now) (machine_of self.old pl) }
    {
        // by cases, each message beside its buffer: by `many` there are as many of both, and no other pair is met
        match *events {
            Few::Nothing => {}
            Few::One(e) => {
                if let Few::One(b) = buffers {
                    self.send(plan, b, e);
                    self.lower(worker, e.time);
                }
            }
            Few::Two(e, f) => {
                if let Few::Two(b, c) = buffers {
                    self.send(plan, b, e);
                    self.lower(worker, e.time);
                    self.send(plan, c, f);
                    self.lower(worker, f.time);
                }
            }
        }
    }

    /// The worker's pending event of least key.
    #[tactic(auto, unfolding(machine::specs::Machine::foremost))]
    pub fn next(&self, plan: &Plan, worker: u8) -> Option<u8>
        ensures { (pl : List Place) → result ≡ next_of plan.now worker (machine_of self.now pl) }
    {
        self.records.foremost(&Next {
            home: plan.home,
            worker,
        })
    }

    /// The event in the buffer, and its process as it stands.
    pub fn due(&self, buffer: u8) -> (Event, Process)
        ensures event { result.0 ≡ (slice_index_or self.now.records buffer blank).event }
        ensures process { result.1 ≡ slice_index_or self.now.processes result.0.process nobody }
        ensures place { result.0.process < 32 }
    {
        let event = self.records.at(buffer).event;
        (event, self.processes[event.process as usize])
    }

    /// The event in the buffer, which came to this outcome, is done: its messages went into these buffers.
    pub fn step(
        &mut self,
        plan: &Plan,
        worker: WorkerId,
        buffer: u8,
        outcome: &Outcome,
        buffers: Few<u8>,
    )
        requires aimed { Aimed outcome.now.sends }
        requires many { many buffers ≡ many outcome.now.sends }
        requires fits { (slice_index_or self.old.processes
            (slice_index_or self.old.records buffer blank).event.process nobody).count
            + many outcome.now.sends < 2 ^ 64 }
        ensures posted { self.new.posted ≡ self.old.posted }
        ensures machine { (pl : List Place) →
            machine_of self.new (outs (listed buffers) pl)
            ≡ stepped_by plan.now worker.index buffer outcome.now buffers (machine_of self.old pl) }
    {
        let cancelled = self.records.at(buffer).cancelled;
        let (event, before) = self.due(buffer);
        self.send_few(plan, worker, buffers, &outcome.sends);
        let done = Message {
            phase: Phase::Done,
            cancelled,
            event,
            snapshot: before,
            outcome: *outcome,
            sent: buffers,
        };
        self.put(buffer, &done);
        self.put_process(event.process, before.after(outcome));
    }
}
