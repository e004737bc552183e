//! Runs of calls, with what they answer.

ghost use Rattle.std.specs.Prelude.{◌≡◌, length, IfOk, IfErr, count_by};
ghost use Rattle.executive.specs.Running.{Goes, Keeps, Makes, machine, set_up};
ghost use Rattle.executive.specs.Runs.{LawfulGroups, LawfulRun, answer_of, gathered, is_in_use, group_transcript};
ghost use Rattle.executive.specs.Runs.{transcript_of};
ghost use Rattle.machine.specs.declared.call.Call.TheVariants.{Collect};
ghost use Rattle.pool.specs.Lanes.{lent};

use crate::{Executive, Setup};
use machine::call::{Answer, Call};
use machine::message::{Message, Phase};
use model::Model;
use pool::Pool;
use sequential::event::Line;
use std::alloc::{AllocError, Global};

/// What a group of calls came to: their answers, and then GVT and how many buffers are out of the pool.
#[derive(Drop)]
pub struct Group {
    pub answers: Vec<Answer<Vec<Line>>>,
    pub gvt: u64,
    pub out: u64,
}

// How many buffers are in use.
fn in_use(messages: &[Message]) -> u64
    ensures { result ≡ count_by (λ m. is_in_use m.phase) messages.now }
{
    messages.iter().filter(|m| m.phase != Phase::Free).count() as u64
}

impl<M: Model, P: Pool> Executive<M, P> {
    // Collects up to `most` lines into a list of its own: the lines, and how many remain.
    fn gather(&mut self, alloc: Global, most: u64) -> Result<(Vec<Line>, u64), AllocError>
        ensures makes { IfOk result (λ x. Makes self.old (Collect most) (gathered x) self.new) }
        ensures fails { IfErr result (λ _. self.new ≡ self.old) }
    {
        let mut lines = vec![in alloc; Line::EMPTY; most as usize]?;
        let (written, remaining) = self.collect(lines.as_mut_slice());
        lines.truncate(written);
        Ok((lines, remaining))
    }

    /// Makes one call, and gives its answer.
    pub fn make(&mut self, alloc: Global, call: Call) -> Result<Answer<Vec<Line>>, AllocError>
        ensures makes { IfOk result (λ a. Makes self.old call (answer_of a) self.new) }
        ensures fails { IfErr result (λ _. self.new ≡ self.old) }
    {
        // an arm for each call: each has numbers and an answer of its own
        let answer = match call {
            Call::Post(process, time, payload) => {
                self.post(process, time, payload)
                    .map_or_else(Answer::Refused, Answer::Posted)
            }
            Call::Absorb(worker) => self.absorb(worker).map_or_else(
                Answer::Refused,
                |(gone, undone, cancelled)| Answer::Absorbed(gone, undone, cancelled),
            ),
            Call::Step(worker) => self.step(worker).map_or_else(
                Answer::Refused,
                |(time, process, sends)| Answer::Stepped(time, process, sends),
            ),
            Call::Round => self.round().map_or_else(Answer::Refused, Answer::Opened),
            Call::Report(worker) => {
                self.report(worker).map_or_else(
                    Answer::Refused,
                    |(missing, gvt)| Answer::Told(missing, gvt),
                )
            }
            Call::Collect(most) => {
                let (lines, remaining) = self.gather(alloc, most)?;
                Answer::Collected(lines, remaining)
            }
        };
        Ok(answer)
    }

    // Makes the calls one after the other, and gives their answers.
    pub(crate) fn make_all(
        &mut self,
        alloc: Global,
        calls: &[Call],
    ) -> Result<Vec<Answer<Vec<Line>>>, AllocError>
        ensures answered { IfOk result (λ v. length v.items ≡ length calls.now) }
        ensures runs { IfOk result (λ v. Goes self.old (transcript_of calls.now v.items) self.new) }
        ensures fails { IfErr result (λ _. Keeps self.old self.new) }
    {
        let mut answers = Vec::new(alloc);
        for &call in calls {
            answers.push(self.make(alloc, call)?)?;
        }
        Ok(answers)
    }

    // Makes a group of calls: their answers, and where GVT and the buffers out are then.
    fn make_group(&mut self, alloc: Global, calls: &[Call]) -> Result<Group, AllocError>
        ensures answered { IfOk result (λ x. length x.answers.items ≡ length calls.now) }
        ensures runs { IfOk result (λ x. Goes self.old (group_transcript calls.now x) self.new) }
        ensures fails { IfErr result (λ _. Keeps self.old self.new) }
        ensures gvt { IfOk result (λ x. x.gvt ≡ (machine self.new).gvt) }
        ensures out { IfOk result (λ x. x.out ≡ lent (machine self.new).places) }
    {
        let answers = self.make_all(alloc, calls)?;
        Ok(Group {
            answers,
            gvt: self.tables.gvt,
            out: in_use(self.tables.records.as_slice()),
        })
    }
}

/// Starts the setup, makes a first group of calls and then a second: what each came to.
pub fn run_groups<M: Model + Drop, P: Pool + Drop>(
    alloc: Global,
    setup: Setup<M, P>,
    first: &[Call],
    second: &[Call],
) -> Result<(Group, Group), AllocError>
    ensures { IfOk result (λ x. LawfulGroups (set_up setup) first.now second.now x.0 x.1) }
{
    let mut executive = setup.start();
    let one = executive.make_group(alloc, first)?;
    let two = executive.make_group(alloc, second)?;
    Ok((one, two))
}

/// Starts the setup and makes the calls: what they came to.
// beside `run_groups`, which with an empty second list would give a second group that was not asked for
pub fn run_calls<M: Model + Drop, P: Pool + Drop>(
    alloc: Global,
    setup: Setup<M, P>,
    calls: &[Call],
) -> Result<Group, AllocError>
    ensures { IfOk result (λ x. LawfulRun (set_up setup) calls.now x) }
{
    let mut executive = setup.start();
    executive.make_group(alloc, calls)
}
