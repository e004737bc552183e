//! The sequential run in code.

ghost use Rattle.std.specs.Prelude.{◌≡◌, ◌≤◌, [], insert, position, None, MatchResult, slice_index_or, slice_set};
ghost use Rattle.std.specs.VecDeque.{deque_len};
ghost use Rattle.model.specs.Meaning.{listed};
ghost use Rattle.sequential.specs.Events.{earlier as key_earlier, nobody};
ghost use Rattle.sequential.specs.Posts.{Fails, first_unfit, post_fits, posted};
ghost use Rattle.sequential.specs.Run.{BudgetSuffices, fresh as initial_processes, lines as lines_from, queued};
ghost use Rattle.sequential.specs.Run.{queued_all, run as sequential_run};
ghost use Rattle.sequential.specs.declared.run.RunError.TheVariants.{NoMemory};

use crate::apply::apply;
use crate::event::{Event, Line, Post, Process};
use crate::limits::Limits;
use model::Model;
use model::limits::PROCESSES;
use model::reaction::Few;
use std::alloc::{AllocFailed, Global};
use std::collections::VecDeque;
use std::error::Error;
use std::{array, fmt};

/// Why the sequential run gives no lines.
#[derive(Clone, Copy, PartialEq, Eq, Debug)]
pub enum RunError {
    // the post at this place could not be accepted: no such process, at or past the end, or past the cap
    Unfit(usize),
    NoMemory,
}

impl fmt::Display for RunError {
    ghost use Rattle.std.specs.Prelude.{Some};
    ghost use Rattle.sequential.specs.Posts.{error_text};

    ghost output = { λ e. Some (error_text e) };

    fn fmt<W: fmt::Write>(&self, f: &mut fmt::Formatter<W>) -> fmt::Result {
        match self {
            RunError::Unfit(place) => write!(f, "the post {place} cannot be accepted"),
            RunError::NoMemory => f.write_str("no memory is left"),
        }
    }
}

impl Error for RunError {}

impl<T: Drop> From<AllocFailed<T>> for RunError {
    ghost from_gives = { λ _ r. r ≡ NoMemory };

    fn from(_e: AllocFailed<T>) -> RunError {
        RunError::NoMemory
    }
}

// The place of the first that waits and is later than the event.
fn first_later(waiting: &VecDeque<Event>, event: &Event) -> Option<usize>
    ensures { result ≡ position (key_earlier event.now) waiting.now.items }
{
    waiting.iter().position(|w| event.earlier(w))
}

// Where the event joins those that wait: in front of the first later one.
fn place_of(waiting: &VecDeque<Event>, event: &Event) -> usize
    ensures within { result ≤ deque_len waiting.now }
    ensures place { insert waiting.now.items result event.now ≡ queued event.now waiting.now.items }
{
    first_later(waiting, event).unwrap_or(waiting.len())
}

// The event waits, in key order.
// No heap: `queued` says in which order all of them wait, and a heap says only which stands on top.
fn enqueue(waiting: &mut VecDeque<Event>, event: Event) -> Result<(), RunError>
    ensures { MatchResult result (λ _. waiting.new.items ≡ queued event waiting.old.items) (λ e. e ≡ NoMemory) }
{
    let place = place_of(waiting, &event);
    waiting.insert(place, event)?;
    Ok(())
}

// The messages of an event wait, in their order.
// By cases: a loop over two would owe an invariant, and no case owes anything.
fn enqueue_all(waiting: &mut VecDeque<Event>, sends: Few<Event>) -> Result<(), RunError>
    ensures { MatchResult result (λ _. waiting.new.items ≡ queued_all (listed sends) waiting.old.items)
        (λ e. e ≡ NoMemory) }
{
    match sends {
        Few::Nothing => Ok(()),
        Few::One(first) => enqueue(waiting, first),
        Few::Two(first, second) => {
            enqueue(waiting, first)?;
            enqueue(waiting, second)
        }
    }
}

// Model and limits are two parameters, here and below: an executive, which calls `apply` too, has its limits in a plan.
// Whether the post can be accepted after `number` others.
fn fits<M: Model>(model: &M, limits: &Limits, number: u64, post: &Post) -> bool
    ensures { result ≡ post_fits (M.meaning model.now) limits.now number post.now }
{
    post.process < model.size() as u64 && post.time < limits.end && number < limits.most
}

// The posts wait, numbered from 0; the first that cannot be accepted is named.
fn accept<M: Model>(
    alloc: Global,
    model: &M,
    limits: &Limits,
    posts: &[Post],
) -> Result<VecDeque<Event>, RunError>
    ensures { MatchResult result
        (λ v. (first_unfit (M.meaning model.now) limits.now 0 posts.now ≡ None)
        × (v.items ≡ queued_all (posted 0 posts.now) []))
        (Fails (M.meaning model.now) limits.now posts.now) }
{
    let mut waiting = VecDeque::new(alloc);
    for (i, post) in posts.iter().enumerate() {
        if !fits(model, limits, i as u64, post) {
            return Err(RunError::Unfit(i));
        }
        enqueue(&mut waiting, post.event(i as u64))?;
    }
    Ok(waiting)
}

/// Every process in its initial state, with nothing sent.
pub fn fresh_processes<M: Model>(model: &M) -> [Process; PROCESSES]
    ensures { result ≡ initial_processes (M.meaning model.now) }
{
    array::from_fn(|p| Process {
        state: model.initial(p as u64),
        count: 0,
    })
}

/// The process of an event; of no process, one that has done nothing.
pub fn process_of(processes: &[Process; PROCESSES], p: u8) -> Process
    ensures { result ≡ slice_index_or processes.now p nobody }
{
    processes
        .get(p as usize)
        .copied()
        .unwrap_or(Process::NOBODY)
}

// The process of an event is as the outcome leaves it.
fn put_process(processes: &mut [Process; PROCESSES], p: u8, process: Process)
    ensures { processes.new ≡ slice_set processes.old p process }
{
    // tried `get_mut`: when its loan is over, a proof knows the length and no element
    if (p as usize) < processes.len() {
        processes[p as usize] = process;
    }
}

// At most `budget` lines: the least waiting event is applied, written, and its messages wait.
fn run_on<M: Model>(
    alloc: Global,
    model: &M,
    limits: &Limits,
    budget: u64,
    mut waiting: VecDeque<Event>,
) -> Result<Vec<Line>, RunError>
    ensures { MatchResult result
        (λ v. v.items
        ≡ lines_from (M.meaning model.now) limits.now budget (initial_processes (M.meaning model.now)) waiting.items)
        (λ e. e ≡ NoMemory) }
{
    let mut lines = Vec::new(alloc);
    let mut processes = fresh_processes(model);
    // not `while let`: the budget bounds the turns
    for _ in 0..budget {
        let Some(event) = waiting.pop_front() else {
            break;
        };
        let before = process_of(&processes, event.process);
        let outcome = apply(model, limits, &event, &before);
        put_process(&mut processes, event.process, before.after(&outcome));
        lines.push(outcome.line(event))?;
        enqueue_all(&mut waiting, outcome.sends)?;
    }
    Ok(lines)
}

/// The lines of the sequential run of the posts, numbered from 0 in their order.
pub fn run<M: Model>(
    alloc: Global,
    model: &M,
    limits: &Limits,
    posts: &[Post],
) -> Result<Vec<Line>, RunError>
    ensures { MatchResult result
        (λ v. (first_unfit (M.meaning model.now) limits.now 0 posts.now ≡ None)
        × (v.items ≡ sequential_run (M.meaning model.now) limits.now (posted 0 posts.now)))
        (Fails (M.meaning model.now) limits.now posts.now) }
{
    let waiting = accept(alloc, model, limits, posts)?;
    let budget = posts.len() as u64 + PROCESSES as u64 * limits.most;
    run_on(alloc, model, limits, budget, waiting)
}

/// The budget of the sequential run never cuts it short.
#[tactic(auto, using(crate::proofs::Budget::budget_suffices))]
pub fn budget_suffices()
    ensures { BudgetSuffices }
{}
