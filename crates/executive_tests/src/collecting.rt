//! Collecting into the caller's list.

use crate::fixture::{two_ports, whole_round};
use executive::Executive;
use model::state::State;
use model::switch::Switch;
use pool::common::CommonPool;
use sequential::event::{Event, Line, Verdict};
use std::process::Abort;
use std::test::Fail;

// A line that no run here writes.
const MARK: Line = Line {
    event: Event {
        time: 7,
        process: 7,
        sender: 7,
        number: 7,
        payload: 7,
    },
    verdict: Verdict::NoReceiver,
    state: State {
        w0: 7,
        w1: 7,
        w2: 7,
        w3: 7,
    },
};

// Three cells at port 0, all served and before GVT.
fn served(rt: &impl Abort) -> Result<Executive<Switch, CommonPool>, Fail> {
    let mut executive = two_ports(100)?;
    for i in 0..3 {
        executive.post(0, 10 + i, 0)?;
        executive.absorb(0)?;
        executive.step(0)?;
    }
    assert_eq!(rt; whole_round(&mut executive), Ok(100));
    Ok(executive)
}

#[test]
fn the_list_is_kept_past_what_is_written(rt: HostRuntime) -> Result<(), Fail> {
    let mut executive = served(&rt)?;
    let mut lines = [MARK; 5];
    assert_eq!(rt; executive.collect(&mut lines), (3, 0));
    assert_eq!(rt; lines[0].event.time, 10);
    assert_eq!(rt; lines[2].event.time, 12);
    assert_eq!(rt; lines[3], MARK);
    assert_eq!(rt; lines[4], MARK);
    assert_eq!(rt; executive.collect(&mut lines), (0, 0));
    assert_eq!(rt; lines[0].event.time, 10);
    Ok(())
}

#[test]
fn a_short_list_leaves_lines_for_later(rt: HostRuntime) -> Result<(), Fail> {
    let mut executive = served(&rt)?;
    let mut lines = [MARK; 2];
    assert_eq!(rt; executive.collect(&mut []), (0, 3));
    assert_eq!(rt; executive.collect(&mut lines), (2, 1));
    assert_eq!(rt; lines[1].event.time, 11);
    assert_eq!(rt; executive.collect(&mut lines), (1, 0));
    assert_eq!(rt; lines[0].event.time, 12);
    assert_eq!(rt; lines[1].event.time, 11);
    Ok(())
}

#[test]
fn events_at_gvt_wait(rt: HostRuntime) -> Result<(), Fail> {
    let mut executive: Executive<Switch, CommonPool> = two_ports(100)?;
    assert_eq!(rt; executive.post(0, 10, 0), Ok(0));
    assert_eq!(rt; executive.post(1, 10, 0), Ok(1));
    assert_eq!(rt; executive.absorb(0), Ok((0, 0, 0)));
    assert_eq!(rt; executive.step(0), Ok((10, 0, 0)));
    assert_eq!(rt; whole_round(&mut executive), Ok(10));
    assert_eq!(rt; executive.collect(&mut [MARK; 5]), (0, 0));
    Ok(())
}
