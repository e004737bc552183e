//! A burst of cells through a switch of four ports: the lines of the run, and what a planner asks of them.

#![tactic(auto)]

use anyhow::anyhow;
use model::switch::Switch;
use sequential::event::{Line, Post, Verdict};
use sequential::limits::Limits;
use sequential::run::run;
use sequential::text::{field_names, write_lines};
use std::alloc::{AllocError, Global};

const PORTS: u64 = 4;

const SERVICE: u64 = 5;

// What a planner asks: cells served, the longest wait for a port, and when the last cell left.
#[derive(Clone, Copy)]
struct Summary {
    served: u64,
    longest_wait: u64,
    last_left: u64,
}

// How long the cell of this line waited: its port let it go one service time after its wait.
fn wait_of(line: &Line) -> u64 {
    let arrived = line.event.time.saturating_add(SERVICE);
    line.state.w0.saturating_sub(arrived)
}

// Sums up the lines without a fault.
fn sum_up(lines: &[Line]) -> Summary {
    let mut served = 0;
    let mut longest_wait = 0;
    let mut last_left = 0;
    for line in lines {
        if line.verdict == Verdict::Fine {
            served += 1;
            longest_wait = longest_wait.max(wait_of(line));
            last_left = last_left.max(line.state.w0);
        }
    }
    Summary {
        served,
        longest_wait,
        last_left,
    }
}

// The lines behind the names of their fields.
fn lines_text(alloc: Global, lines: &[Line]) -> Result<String, AllocError> {
    let mut text = String::from_str(alloc, field_names())?;
    write_lines(&mut text, lines)?;
    Ok(text)
}

// The lines of the burst: eight cells within seven units of time, each with the hops it has left.
fn burst(alloc: Global) -> anyhow::Result<Vec<Line>> {
    let model = Switch::new(PORTS, SERVICE).map_err(|_| anyhow!("no such switch"))?;
    let limits = Limits::new(1000, 100).map_err(|_| anyhow!("no such limits"))?;
    let posts = [
        Post::new(0, 10, 3),
        Post::new(0, 10, 0),
        Post::new(1, 11, 2),
        Post::new(0, 12, 1),
        Post::new(2, 13, 0),
        Post::new(3, 13, 3),
        Post::new(0, 15, 2),
        Post::new(1, 16, 1),
    ];
    run(alloc, &model, &limits, &posts).map_err(|_| anyhow!("the run gives no lines"))
}

fn main(rt: HostRuntime) -> anyhow::Result<()> {
    let lines = burst(rt.alloc())?;
    let text = lines_text(rt.alloc(), &lines)?;
    print!(rt; "{text}")?;
    let Summary {
        served,
        longest_wait,
        last_left,
    } = sum_up(&lines);
    println!(rt; "cells served by a port: {served}")?;
    println!(rt; "longest wait for a port: {longest_wait}")?;
    println!(rt; "last cell left at: {last_left}")?;
    Ok(())
}
