//! Rounds: opening one, reporting, closing it.

ghost use Rattle.std.specs.Prelude.{◌≡◌, List, map, min, is_some, count_by};
ghost use Rattle.std.specs.List.{fold, filter_map};
ghost use Rattle.pool.specs.declared.place.Place.{Place};
ghost use Rattle.machine.specs.Machine.{inbox_time, report_of, with_report as tells, clearing, opened as opens};
ghost use Rattle.machine.specs.Machine.{missing as lacking, reported as reports, worker as worker_at};
ghost use Rattle.tables.specs.Meaning.{machine_of};
ghost use Rattle.tables.specs.Reports.{is_missing};

use crate::Tables;
use crate::homes::WorkerId;
use choice::kinds::Next;
use choice::records::Records;
use inbox::{Inbox, Worker};
use machine::plan::Plan;
use pool::WORKERS;

// The least of t and the times of the messages in an inbox.
pub(crate) fn inbox_time(records: &Records, inbox: &Inbox, time: u64) -> u64
    ensures { result ≡ inbox_time records.now inbox.now time }
{
    let mut least = time;
    // an inbox has no iterator: one of its own, with its laws, would be longer than this loop
    let n = inbox.len();
    for i in 0..n {
        let b = inbox.get(i);
        least = least.min(records.at(b).event.time);
    }
    least
}

// Every floor is the end again, and nobody has reported.
pub(crate) fn clear(workers: &mut [Worker; WORKERS], end: u64)
    ensures { workers.new ≡ map (clearing end) workers.old }
{
    for worker in workers.iter_mut() {
        worker.floor = end;
        worker.report = None;
    }
}

// How many have not reported.
pub(crate) fn missing(workers: &[Worker]) -> usize
    ensures { result ≡ count_by is_missing workers.now }
{
    workers.iter().filter(|w| w.report.is_none()).count()
}

// The least of t and what was reported.
pub(crate) fn least_report(workers: &[Worker], t: u64) -> u64
    ensures { result ≡ fold min t (filter_map (λ x. x.report) workers.now) }
{
    workers
        .iter()
        .filter_map(|w| w.report)
        .fold(t, |least, r| least.min(r))
}

impl Tables {
    // The least time that a worker could still send at.
    #[tactic(auto, unfolding(machine::specs::Machine::report_of))]
    pub(crate) fn report_of(&self, plan: &Plan, worker: WorkerId) -> u64
        ensures { (pl : List Place) → result ≡ report_of plan.now worker.index (machine_of self.now pl) }
    {
        let row = &self.workers[worker.index as usize];
        let floor = plan.limits.end.min(row.floor);
        let pending = Next {
            home: plan.home,
            worker: worker.index,
        };
        let least = self.records.least_time(&pending, floor);
        inbox_time(&self.records, &row.inbox, least)
    }

    // The worker writes its report down.
    #[tactic(auto, unfolding(machine::specs::Machine::with_report))]
    pub(crate) fn tell(&mut self, plan: &Plan, worker: WorkerId)
        ensures { (pl : List Place) →
            machine_of self.new pl ≡ tells plan.now worker.index (machine_of self.old pl) }
    {
        let time = self.report_of(plan, worker);
        self.workers[worker.index as usize].report = Some(time);
    }

    /// The worker has reported in the open round.
    pub fn has_reported(&self, worker: WorkerId) -> bool
        ensures { (pl : List Place) →
            result ≡ is_some (worker_at (machine_of self.now pl) worker.index).report }
    {
        self.workers[worker.index as usize].report.is_some()
    }

    /// A round is opened.
    #[tactic(auto, unfolding(machine::specs::Machine::opened))]
    pub fn open(&mut self, plan: &Plan)
        ensures posted { self.new.posted ≡ self.old.posted }
        ensures machine { (pl : List Place) → machine_of self.new pl ≡ opens plan.now (machine_of self.old pl) }
    {
        clear(&mut self.workers, plan.limits.end);
        self.floor = plan.limits.end;
        self.rounding = true;
    }

    /// The worker reports; the last report closes the round: how many reports are missing.
    pub fn report(&mut self, plan: &Plan, worker: WorkerId) -> u8
        ensures posted { self.new.posted ≡ self.old.posted }
        ensures missing { (pl : List Place) → result ≡ lacking (machine_of self.new pl).workers plan.now.workers }
        ensures machine { (pl : List Place) →
            machine_of self.new pl ≡ reports plan.now worker.index (machine_of self.old pl) }
    {
        self.tell(plan, worker);
        let workers = &self.workers[..plan.workers as usize];
        let n = missing(workers) as u8;
        if n > 0 {
            return n;
        }
        let least = least_report(workers, self.floor);
        self.rounding = false;
        self.gvt = least;
        0
    }
}
