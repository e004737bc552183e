//! Every refusal of a running executive, and which of two comes first.

use crate::fixture::{two_ports, whole_round};
use executive::Executive;
use machine::refusal::Refusal;
use model::switch::Switch;
use pool::common::CommonPool;
use std::test::Fail;

#[test]
fn posts_are_refused_in_order(rt: HostRuntime) -> Result<(), Fail> {
    let mut executive: Executive<Switch, CommonPool> = two_ports(2)?;
    assert_eq!(rt; executive.post(2, 10, 0), Err(Refusal::NoProcess));
    assert_eq!(rt; executive.post(2, 100, 0), Err(Refusal::NoProcess));
    assert_eq!(rt; executive.post(0, 100, 0), Err(Refusal::PastEnd));
    assert_eq!(rt; executive.post(0, 10, 0), Ok(0));
    assert_eq!(rt; executive.post(1, 20, 0), Ok(1));
    assert_eq!(rt; executive.post(1, 20, 0), Err(Refusal::CapReached));
    assert_eq!(rt; executive.post(1, 100, 0), Err(Refusal::PastEnd));
    assert_eq!(rt; whole_round(&mut executive), Ok(10));
    assert_eq!(rt; executive.post(1, 9, 0), Err(Refusal::BeforeGvt));
    assert_eq!(rt; executive.post(2, 9, 0), Err(Refusal::NoProcess));
    assert_eq!(rt; executive.post(1, 10, 0), Err(Refusal::CapReached));
    Ok(())
}

#[test]
fn absorbing_and_stepping_are_refused(rt: HostRuntime) -> Result<(), Fail> {
    let mut executive: Executive<Switch, CommonPool> = two_ports(100)?;
    assert_eq!(rt; executive.absorb(2), Err(Refusal::NoWorker));
    assert_eq!(rt; executive.absorb(0), Err(Refusal::InboxEmpty));
    assert_eq!(rt; executive.step(2), Err(Refusal::NoWorker));
    assert_eq!(rt; executive.step(0), Err(Refusal::NothingPending));
    assert_eq!(rt; executive.post(0, 10, 0), Ok(0));
    assert_eq!(rt; executive.step(0), Err(Refusal::NothingPending));
    assert_eq!(rt; executive.absorb(1), Err(Refusal::InboxEmpty));
    assert_eq!(rt; executive.absorb(0), Ok((0, 0, 0)));
    assert_eq!(rt; executive.step(1), Err(Refusal::NothingPending));
    assert_eq!(rt; executive.step(0), Ok((10, 0, 0)));
    Ok(())
}

#[test]
fn rounds_and_reports_are_refused(rt: HostRuntime) -> Result<(), Fail> {
    let mut executive: Executive<Switch, CommonPool> = two_ports(100)?;
    assert_eq!(rt; executive.report(2), Err(Refusal::NoWorker));
    assert_eq!(rt; executive.report(0), Err(Refusal::NoRound));
    assert_eq!(rt; executive.round(), Ok(2));
    assert_eq!(rt; executive.round(), Err(Refusal::RoundOpen));
    assert_eq!(rt; executive.report(1), Ok((1, 0)));
    assert_eq!(rt; executive.report(1), Err(Refusal::Reported));
    assert_eq!(rt; executive.report(2), Err(Refusal::NoWorker));
    assert_eq!(rt; executive.report(0), Ok((0, 100)));
    assert_eq!(rt; executive.report(0), Err(Refusal::NoRound));
    assert_eq!(rt; executive.post(0, 99, 0), Err(Refusal::BeforeGvt));
    Ok(())
}
