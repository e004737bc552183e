//! Collecting: lines taken out, and how many are left.

ghost use Rattle.std.specs.Prelude.{◌≡◌, List, slice_index_or, slice_set};
ghost use Rattle.pool.specs.Lanes.{Lanes};
ghost use Rattle.pool.specs.declared.place.Place.{Place};
ghost use Rattle.machine.specs.declared.plan.Plan.{Plan};
ghost use Rattle.machine.specs.Machine.{freed as frees, returned, blank, oldest as oldest_of, remaining as remains};
ghost use Rattle.tables.specs.Meaning.{machine_of};
ghost use Rattle.tables.specs.Pulls.{Pulls};

use crate::Tables;
use choice::kinds::Oldest;
use machine::message::Message;
use sequential::event::{Event, Line};

impl Tables {
    // The done event of least key earlier than GVT.
    #[tactic(auto, unfolding(machine::specs::Machine::foremost))]
    pub(crate) fn oldest(&self) -> Option<u8>
        ensures { (pl : List Place) → result ≡ oldest_of (machine_of self.now pl) }
    {
        self.records.foremost(&Oldest { gvt: self.gvt })
    }

    // The buffer is emptied: the event that it held, by which it returns to the pool.
    pub(crate) fn wipe(&mut self, buffer: u8) -> Event
        ensures event { result ≡ (slice_index_or self.old.records buffer blank).event }
        ensures posted { self.new.posted ≡ self.old.posted }
        ensures machine { (l : Lanes) (u : Plan) (pl : List Place) →
            machine_of self.new (slice_set pl buffer (returned l u result))
            ≡ frees l u buffer (machine_of self.old pl) }
    {
        let event = self.records.at(buffer).event;
        self.put(buffer, &Message::EMPTY);
        event
    }

    /// The oldest done event earlier than GVT is taken out: its buffer, and its line.
    pub fn pull(&mut self) -> Option<(u8, Line)>
        ensures posted { self.new.posted ≡ self.old.posted }
        ensures does { Pulls self.old self.new result }
    {
        let buffer = self.oldest()?;
        let message = self.records.at(buffer);
        let line = message.outcome.line(message.event);
        self.wipe(buffer);
        Some((buffer, line))
    }

    /// How many done events earlier than GVT are left.
    #[tactic(auto, unfolding(machine::specs::Machine::remaining))]
    pub fn remaining(&self) -> u64
        ensures { (pl : List Place) → result ≡ remains (machine_of self.now pl) }
    {
        self.records.count(&Oldest { gvt: self.gvt }) as u64
    }
}
