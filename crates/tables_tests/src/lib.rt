//! Tests of the tables on small cases: all processes live on the first of two workers.

#![tactic(auto)]

ghost use Rattle.std.specs.Prelude.{◌≡◌};

use machine::plan::Plan;
use sequential::event::{Event, Process};
use sequential::limits::Limits;

// Two workers, all processes on the first; the run ends at 100.
pub fn two_workers() -> Plan
    ensures { result.workers ≡ 2 }
{
    Plan {
        limits: Limits {
            end: 100,
            most: 100,
        },
        workers: 2,
        home: [0; 32],
    }
}

// Processes that have sent nothing.
pub fn nobodies() -> [Process; 32] {
    [Process::NOBODY; 32]
}

// The first message of process 1, to process 0.
pub fn message(time: u64) -> Event
    ensures { result.process ≡ 0 }
{
    Event {
        time,
        process: 0,
        sender: 1,
        number: 0,
        payload: 5,
    }
}

#[cfg(test)]
mod tests {
    use crate::{message, nobodies, two_workers};
    use inbox::Inbox;
    use model::reaction::Few;
    use model::state::State;
    use sequential::event::{Outcome, Verdict};
    use std::test::Fail;
    use tables::Tables;
    use tables::absorb::{Freed, Taken};
    use tables::homes::WorkerId;

    // An inbox gives back the oldest first.
    #[test]
    fn first_in_first_out(rt: HostRuntime) {
        let mut inbox = Inbox::new();
        inbox.push(7);
        inbox.push(9);
        assert_eq!(rt; inbox.len(), 2);
        assert_eq!(rt; inbox.pop(), Some(7));
        assert_eq!(rt; inbox.pop(), Some(9));
        assert_eq!(rt; inbox.pop(), None);
    }

    // A late post rolls back what is past it: the process is as before, and its message, in transit, is annihilated
    // once.
    #[test]
    fn straggler(rt: HostRuntime) -> Result<(), Fail> {
        let u = two_workers();
        let first = WorkerId::of(&u, 0).ok_or("no worker 0")?;
        let mut t = Tables::start(&u, nobodies());
        t.post(&u, 1, 1, 14, 3);
        assert_eq!(rt; t.absorb(&u, first), arrived(0, 0));
        assert_eq!(rt; t.next(&u, 0), Some(1));
        let (_, q) = t.due(1);
        let o = Outcome {
            verdict: Verdict::Fine,
            state: State { w0: 1, ..q.state },
            sends: Few::One(message(20)),
        };
        t.post(&u, 0, 1, 10, 3);
        assert!(rt; t.due(1).1.count < 100);
        t.step(&u, first, 1, &o, Few::One(2));
        let count = t.processes[1].count;
        assert_eq!(rt; count, 1);
        assert_eq!(rt; t.absorb(&u, first), arrived(1, 1));
        let count = t.processes[1].count;
        assert_eq!(rt; count, 0);
        let gone = Taken {
            undone: 0,
            cancelled: 0,
            freed: Some(Freed {
                buffer: 2,
                event: message(20),
            }),
        };
        assert_eq!(rt; t.absorb(&u, first), Some(gone));
        assert_eq!(rt; t.absorb(&u, first), None);
        assert_eq!(rt; t.next(&u, 0), Some(0));
        Ok(())
    }

    // GVT is the least that may still come; what stands at GVT is not collected, what is earlier is.
    #[test]
    fn round(rt: HostRuntime) -> Result<(), Fail> {
        let u = two_workers();
        let first = WorkerId::of(&u, 0).ok_or("no worker 0")?;
        let second = WorkerId::of(&u, 1).ok_or("no worker 1")?;
        assert!(rt; WorkerId::of(&u, 2).is_none());
        let mut t = Tables::start(&u, nobodies());
        t.post(&u, 4, 1, 5, 3);
        t.open(&u);
        assert_eq!(rt; t.report(&u, first), 1);
        assert!(rt; t.has_reported(first));
        assert_eq!(rt; t.report(&u, second), 0);
        assert_eq!(rt; t.gvt, 5);
        assert_eq!(rt; t.absorb(&u, first), arrived(0, 0));
        let (_, q) = t.due(4);
        assert!(rt; q.count < 100);
        let o = Outcome {
            verdict: Verdict::Fine,
            state: q.state,
            sends: Few::Nothing,
        };
        t.step(&u, first, 4, &o, Few::Nothing);
        assert_eq!(rt; t.remaining(), 0);
        assert!(rt; t.pull().is_none());
        t.open(&u);
        assert_eq!(rt; t.report(&u, first), 1);
        assert_eq!(rt; t.report(&u, second), 0);
        assert_eq!(rt; t.remaining(), 1);
        let (b, line) = t.pull().ok_or("no line")?;
        assert_eq!(rt; b, 4);
        assert_eq!(rt; line.event.time, 5);
        assert_eq!(rt; t.remaining(), 0);
        Ok(())
    }

    fn arrived(undone: u64, cancelled: u64) -> Option<Taken> {
        Some(Taken {
            undone,
            cancelled,
            freed: None,
        })
    }
}
