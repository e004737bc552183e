//! The six calls. Each is refused with the first refusal that fits and changes nothing, or answers and does what the
//! machine does.

ghost use Rattle.std.specs.Prelude.{◌≡◌, ◌≤◌, length, take, drop};
ghost use Rattle.executive.specs.Fills.{Fills};
ghost use Rattle.executive.specs.Running.{Makes};
ghost use Rattle.executive.specs.World.{absorb_answer, post_answer, report_answer, round_answer, step_answer};
ghost use Rattle.machine.specs.declared.call.Call.TheVariants.{Absorb, Collect, Post, Report, Round, Step};
ghost use Rattle.machine.specs.declared.call.Answer.TheVariants.{Collected};
ghost use Rattle.tables.specs.Meaning.{machine_of};

use crate::Executive;
use crate::draws::{draw_for, give_back};
use machine::plan::Plan;
use machine::refusal::Refusal;
use model::Model;
use pool::{OUTSIDE_SIDE, Pool};
use sequential::apply::apply;
use sequential::event::Line;
use tables::Tables;
use tables::homes::{WorkerId, home_of};

// Fills a list from its front with lines of done events earlier than GVT, in key order, and returns their buffers: how
// many.
fn fill<P: Pool>(tables: &mut Tables, pool: &mut P, plan: &Plan, lines: &mut [Line]) -> usize
    ensures { Fills P.lanes plan.now (machine_of tables.old (P.places pool.old)) lines.old
        (machine_of tables.new (P.places pool.new)) lines.new result }
{
    let n = lines.len();
    // by index: it is also how many were written, where no further line is ready
    for i in 0..n {
        let Some((b, line)) = tables.pull() else {
            return i;
        };
        give_back(pool, plan, &line.event, b);
        lines[i] = line;
    }
    n
}

impl<M: Model, P: Pool> Executive<M, P> {
    /// Posts a payload for a process at a time, from outside: the post's number.
    // three numbers and no `Post`, as the other calls take theirs
    pub fn post(&mut self, process: u64, time: u64, payload: u64) -> Result<u64, Refusal>
        ensures { Makes self.old (Post process time payload) (post_answer result) self.new }
    {
        if process >= self.model.size() as u64 {
            return Err(Refusal::NoProcess);
        }
        if time < self.tables.gvt {
            return Err(Refusal::BeforeGvt);
        }
        if time >= self.plan.limits.end {
            return Err(Refusal::PastEnd);
        }
        if self.tables.posted == self.plan.limits.most {
            return Err(Refusal::CapReached);
        }
        let p = process as u8;
        let home = home_of(&self.plan, p).index;
        let grant = self
            .pool
            .draw(OUTSIDE_SIDE, home)
            .ok_or(Refusal::LaneShort)?;
        Ok(self.tables.post(&self.plan, grant.send(), p, time, payload))
    }

    /// Opens a round: the number of workers that are to report.
    pub fn round(&mut self) -> Result<u8, Refusal>
        ensures { Makes self.old Round (round_answer result) self.new }
    {
        if self.tables.rounding {
            return Err(Refusal::RoundOpen);
        }
        self.tables.open(&self.plan);
        Ok(self.plan.workers)
    }

    /// A worker reports the earliest time it may still touch: how many reports are missing, and GVT.
    pub fn report(&mut self, worker: u64) -> Result<(u8, u64), Refusal>
        ensures { Makes self.old (Report worker) (report_answer result) self.new }
    {
        let worker = WorkerId::of(&self.plan, worker).ok_or(Refusal::NoWorker)?;
        if !self.tables.rounding {
            return Err(Refusal::NoRound);
        }
        if self.tables.has_reported(worker) {
            return Err(Refusal::Reported);
        }
        let missing = self.tables.report(&self.plan, worker);
        Ok((missing, self.tables.gvt))
    }

    /// A worker absorbs the oldest entry of its inbox: annihilations, events rolled back, messages cancelled.
    pub fn absorb(&mut self, worker: u64) -> Result<(u64, u64, u64), Refusal>
        ensures { Makes self.old (Absorb worker) (absorb_answer result) self.new }
    {
        let worker = WorkerId::of(&self.plan, worker).ok_or(Refusal::NoWorker)?;
        let taken = self
            .tables
            .absorb(&self.plan, worker)
            .ok_or(Refusal::InboxEmpty)?;
        match taken.freed {
            None => Ok((0, taken.undone, taken.cancelled)),
            Some(freed) => {
                give_back(&mut self.pool, &self.plan, &freed.event, freed.buffer);
                Ok((1, taken.undone, taken.cancelled))
            }
        }
    }

    /// A worker applies its pending event of least key, and sends its messages: time, process, number of sends.
    pub fn step(&mut self, worker: u64) -> Result<(u64, u8, u64), Refusal>
        ensures { Makes self.old (Step worker) (step_answer result) self.new }
    {
        let worker = WorkerId::of(&self.plan, worker).ok_or(Refusal::NoWorker)?;
        let b = self
            .tables
            .next(&self.plan, worker.index)
            .ok_or(Refusal::NothingPending)?;
        let (event, process) = self.tables.due(b);
        let limits = self.plan.limits;
        let outcome = apply(&self.model, &limits, &event, &process);
        let drawn = draw_for(&mut self.pool, &self.plan, worker, &outcome.sends);
        let buffers = drawn.ok_or(Refusal::LaneShort)?;
        self.tables.step(&self.plan, worker, b, &outcome, buffers);
        Ok((event.time, event.process, outcome.sends.len()))
    }

    /// Collects lines into the caller's list, up to its length, and keeps the rest of it: lines written, and lines
    /// remaining.
    pub fn collect(&mut self, lines: &mut [Line]) -> (usize, u64)
        ensures within { result.0 ≤ length lines.old }
        ensures rest { drop result.0 lines.new ≡ drop result.0 lines.old }
        ensures makes { Makes self.old (Collect (length lines.old))
            (Collected (take result.0 lines.new) result.1) self.new }
    {
        let written = fill(&mut self.tables, &mut self.pool, &self.plan, lines);
        (written, self.tables.remaining())
    }
}
