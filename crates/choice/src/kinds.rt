//! The three choices: the next event of a worker, the latest done of a process, the oldest done before a time.

ghost use Rattle.std.specs.Prelude.{◌≡◌, ◌<◌, ◌&&◌, ◌==◌, nat_lt, slice_index};
ghost use Rattle.std.proofs.Common.{rules};
ghost use Rattle.sequential.specs.Events.{earlier};
ghost use Rattle.machine.specs.declared.message.Phase.TheVariants.{Pending, Done};
ghost use Rattle.machine.specs.Machine.{later, past, is_done, is_pending};

use crate::records::Choice;
use machine::message::Phase;
use model::limits::PROCESSES;
use sequential::event::Event;

/// Done events of a process, the latest first: those later than the mark, or the mark too.
#[derive(Clone, Copy)]
pub struct Latest {
    pub process: u8,
    pub mark: Event,
    // a flag, as the machine's `past` takes one; `is_past` alone looks at it
    pub through: bool,
}

impl Choice for Latest {
    ghost ok = { λ c p e. is_done p && (e.process == c.process && past c.through c.mark e) };

    ghost before = { λ _ e f. later e f };

    ghost phased = { λ _. Done };

    ghost only = { Prim.search rules };

    fn phase(&self) -> Phase {
        Phase::Done
    }

    fn fits(&self, phase: Phase, event: &Event) -> bool {
        phase == Phase::Done && event.process == self.process && self.is_past(event)
    }

    fn precedes(&self, a: &Event, b: &Event) -> bool {
        b.earlier(a)
    }
}

impl Latest {
    /// The event is later than the mark, or is the mark where a rollback goes through it.
    pub fn is_past(&self, event: &Event) -> bool
        ensures { result ≡ past self.now.through self.now.mark event.now }
    {
        if self.through {
            !event.earlier(&self.mark)
        } else {
            self.mark.earlier(event)
        }
    }
}

/// Pending events of a worker, the earliest first.
#[derive(Clone, Copy)]
pub struct Next {
    pub home: [u8; PROCESSES],
    pub worker: u8,
}

impl Choice for Next {
    ghost ok = { λ c p e. is_pending p && slice_index c.home e.process == c.worker };

    ghost before = { λ _ e f. earlier e f };

    ghost phased = { λ _. Pending };

    ghost only = { Prim.search rules };

    fn phase(&self) -> Phase {
        Phase::Pending
    }

    fn fits(&self, phase: Phase, event: &Event) -> bool {
        phase == Phase::Pending && self.home[event.process as usize] == self.worker
    }

    fn precedes(&self, a: &Event, b: &Event) -> bool {
        a.earlier(b)
    }
}

/// Done events earlier than a time, the earliest first.
#[derive(Clone, Copy)]
pub struct Oldest {
    pub gvt: u64,
}

impl Choice for Oldest {
    ghost ok = { λ c p e. is_done p && nat_lt e.time c.gvt };

    ghost before = { λ _ e f. earlier e f };

    ghost phased = { λ _. Done };

    ghost only = { Prim.search rules };

    fn phase(&self) -> Phase {
        Phase::Done
    }

    fn fits(&self, phase: Phase, event: &Event) -> bool {
        phase == Phase::Done && event.time < self.gvt
    }

    fn precedes(&self, a: &Event, b: &Event) -> bool {
        a.earlier(b)
    }
}
