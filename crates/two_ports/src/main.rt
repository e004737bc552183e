//! A switch of two ports on two workers, with a rollback in it: each call, its answer, and the lines collected.

#![tactic(auto)]

use anyhow::anyhow;
use executive::{Executive, Setup};
use machine::call::{Answer, Call};
use machine::refusal::Refusal;
use model::switch::Switch;
use pool::common::CommonPool;
use sequential::event::Line;
use sequential::text::{field_names, write_lines};
use std::alloc::{AllocError, Global};
use std::io;

// What is called, in order. The cell that port 0 sends on reaches port 1 before the one that port 1 has already served.
const CALLS: [Call; 13] = [
    Call::Post(0, 10, 1),
    Call::Post(1, 14, 0),
    Call::Absorb(1),
    Call::Step(1),
    Call::Absorb(0),
    Call::Step(0),
    Call::Absorb(1),
    Call::Step(1),
    Call::Step(1),
    Call::Round,
    Call::Report(0),
    Call::Report(1),
    Call::Collect(8),
];

// Two ports with a service time of 3, port 0 on worker 0 and port 1 on worker 1.
fn two_ports() -> Result<Setup<Switch, CommonPool>, Refusal> {
    let mut setup = Setup::fresh(Switch::new(2, 3)?);
    setup.set(100, 100, 2)?;
    setup.place(1, 1)?;
    Ok(setup)
}

// An answer as text: a trace's, but for a refusal, which is named.
fn answer_text(alloc: Global, answer: &Answer<Vec<Line>>) -> Result<String, AllocError> {
    match answer {
        Answer::Refused(refusal) => format!(in alloc; "refused: {refusal:?}"),
        _ => answer.to_string(alloc),
    }
}

// The lines of a collection behind the names of their fields; of any other answer nothing.
fn lines_text(alloc: Global, answer: &Answer<Vec<Line>>) -> Result<String, AllocError> {
    let mut text = String::new(alloc);
    if let Answer::Collected(lines, _) = answer {
        text.push_str(field_names())?;
        write_lines(&mut text, lines)?;
    }
    Ok(text)
}

// Makes the calls one after the other, and prints each with what it answers: all texts of a call are made first.
fn show(rt: &HostRuntime, executive: &mut Executive<Switch, CommonPool>) -> io::Result<()> {
    for call in &CALLS {
        let answer = executive.make(rt.alloc(), *call)?;
        let asked = call.to_string(rt.alloc())?;
        let answered = answer_text(rt.alloc(), &answer)?;
        let lines = lines_text(rt.alloc(), &answer)?;
        println!(rt; "{asked} -> {answered}")?;
        rt.print(lines)?;
    }
    Ok(())
}

fn main(rt: HostRuntime) -> anyhow::Result<()> {
    let setup = two_ports().map_err(|_| anyhow!("the setup is refused"))?;
    let mut executive = setup.start();
    show(&rt, &mut executive)?;
    Ok(())
}
