//! Buffers run out, and come back by collecting.

use crate::fixture::{two_ports, whole_round};
use executive::Executive;
use machine::refusal::Refusal;
use model::switch::Switch;
use pool::Pool;
use pool::common::CommonPool;
use pool::receiver::ReceiverPool;
use sequential::event::Line;
use std::process::Abort;
use std::test::Fail;

// Posts so many cells to port 0, the first at 10, the rest at 20.
fn fill<P: Pool>(executive: &mut Executive<Switch, P>, cells: u64) -> Result<(), Refusal> {
    executive.post(0, 10, 0)?;
    for _ in 1..cells {
        executive.post(0, 20, 0)?;
    }
    Ok(())
}

// Port 0 serves its first cell, and its line is collected.
fn free_one<P: Pool>(rt: &impl Abort, executive: &mut Executive<Switch, P>) {
    assert_eq!(rt; executive.absorb(0), Ok((0, 0, 0)));
    assert_eq!(rt; executive.step(0), Ok((10, 0, 0)));
    assert_eq!(rt; whole_round(executive), Ok(20));
    assert_eq!(rt; executive.collect(&mut [Line::EMPTY; 4]), (1, 0));
}

#[test]
fn the_common_pool_has_256_buffers(rt: HostRuntime) -> Result<(), Fail> {
    let mut executive: Executive<Switch, CommonPool> = two_ports(1000)?;
    fill(&mut executive, 256)?;
    assert_eq!(rt; executive.post(0, 20, 0), Err(Refusal::LaneShort));
    assert_eq!(rt; executive.post(1, 20, 0), Err(Refusal::LaneShort));
    assert_eq!(rt; executive.post(1, 100, 0), Err(Refusal::PastEnd));
    free_one(&rt, &mut executive);
    assert_eq!(rt; executive.post(1, 20, 0), Ok(256));
    assert_eq!(rt; executive.post(0, 20, 0), Err(Refusal::LaneShort));
    Ok(())
}

#[test]
fn a_lane_of_a_receiver_has_32_buffers(rt: HostRuntime) -> Result<(), Fail> {
    let mut executive: Executive<Switch, ReceiverPool> = two_ports(1000)?;
    fill(&mut executive, 32)?;
    assert_eq!(rt; executive.post(0, 20, 0), Err(Refusal::LaneShort));
    assert_eq!(rt; executive.post(1, 50, 1), Ok(32));
    assert_eq!(rt; executive.absorb(1), Ok((0, 0, 0)));
    assert_eq!(rt; executive.step(1), Err(Refusal::LaneShort));
    assert_eq!(rt; executive.step(1), Err(Refusal::LaneShort));
    free_one(&rt, &mut executive);
    assert_eq!(rt; executive.step(1), Ok((50, 1, 1)));
    assert_eq!(rt; executive.post(0, 20, 0), Err(Refusal::LaneShort));
    Ok(())
}
