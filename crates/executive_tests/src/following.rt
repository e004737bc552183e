//! Some hundred calls, whose lines are held against the sequential run's.

use executive::{Executive, Setup};
use machine::refusal::Refusal;
use model::Model;
use model::phold::Phold;
use model::switch::Switch;
use pool::Pool;
use pool::common::CommonPool;
use pool::receiver::ReceiverPool;
use sequential::event::{Line, Post};
use sequential::limits::Limits;
use sequential::run::run;
use std::process::Abort;
use std::test::Fail;

const WORKERS: u64 = 4;

const END: u64 = 3000;

const CAP: u64 = 1000;

const TURNS: u64 = 100;

// What is posted, in order: process, time, payload.
fn posts() -> [Post; 6] {
    [
        Post::new(0, 10, 9),
        Post::new(1, 10, 7),
        Post::new(2, 300, 5),
        Post::new(3, 11, 8),
        Post::new(4, 12, 6),
        Post::new(0, 12, 3),
    ]
}

// The model's setup with its five processes spread over the workers.
fn spread<M: Model, P: Pool>(setup: &mut Setup<M, P>) -> Result<(), Refusal> {
    setup.set(END, CAP, WORKERS)?;
    for p in 0..5 {
        setup.place(p, p % WORKERS)?;
    }
    Ok(())
}

// Each worker absorbs twice and steps, and a round is held: whether any event was rolled back.
fn turn<M: Model, P: Pool>(executive: &mut Executive<M, P>) -> Result<bool, Refusal> {
    let mut undone = false;
    for w in 0..WORKERS {
        for _ in 0..2 {
            if let Ok((_, n, _)) = executive.absorb(w) {
                undone = undone || n > 0;
            }
        }
        let _ = executive.step(w);
    }
    executive.round()?;
    for w in 0..WORKERS {
        executive.report(w)?;
    }
    Ok(undone)
}

// Every line collected is the next one of the sequential run, none is left out, and some event was rolled back.
fn follows<M: Model, P: Pool>(
    rt: &impl Abort,
    executive: &mut Executive<M, P>,
    expected: &[Line],
) -> Result<(), Fail> {
    for post in posts() {
        executive.post(post.process, post.time, post.payload)?;
    }
    let mut undone = false;
    let mut rest = expected;
    for _ in 0..TURNS {
        let back = turn(executive)?;
        undone = undone || back;
        let mut lines = [Line::EMPTY; 8];
        let (written, _) = executive.collect(&mut lines);
        assert!(rt; written <= 8 && written <= rest.len());
        let (next, later) = rest.split_at(written);
        for (line, wanted) in lines.iter().zip(next) {
            assert_eq!(rt; *line, *wanted);
        }
        rest = later;
    }
    assert!(rt; undone, "no event was rolled back");
    assert_eq!(rt; rest.len(), 0);
    Ok(())
}

// A test for each of two pairs of a model and a pool, so that each fails by its name; `follows` is what they share.
#[test]
fn a_switch_follows_the_sequential_run(rt: HostRuntime) -> Result<(), Fail> {
    let model = Switch::new(5, 4)?;
    let limits = Limits::new(END, CAP)?;
    let expected = run(rt.alloc(), &model, &limits, &posts())?;
    let mut setup: Setup<Switch, CommonPool> = Setup::fresh(model);
    spread(&mut setup)?;
    follows(&rt, &mut setup.start(), &expected)
}

#[test]
fn a_load_follows_the_sequential_run(rt: HostRuntime) -> Result<(), Fail> {
    let model = Phold::new(5, 77)?;
    let limits = Limits::new(END, CAP)?;
    let expected = run(rt.alloc(), &model, &limits, &posts())?;
    let mut setup: Setup<Phold, ReceiverPool> = Setup::fresh(model);
    spread(&mut setup)?;
    follows(&rt, &mut setup.start(), &expected)
}
