//! Setting up: limits, refusals, and where the processes are.

use crate::fixture::fresh;
use executive::Setup;
use machine::refusal::Refusal;
use model::switch::Switch;
use pool::common::CommonPool;
use std::test::Fail;

#[test]
fn a_setting_outside_the_limits_is_refused(rt: HostRuntime) -> Result<(), Fail> {
    let mut setup: Setup<Switch, CommonPool> = fresh()?;
    assert_eq!(rt; setup.set(0, 1, 1), Err(Refusal::OutsideLimits));
    assert_eq!(rt;
        setup.set(0x100_0000_0001, 1, 1),
        Err(Refusal::OutsideLimits)
    );
    assert_eq!(rt; setup.set(1, 0, 1), Err(Refusal::OutsideLimits));
    assert_eq!(rt; setup.set(1, 0x1_0000_0000, 1), Err(Refusal::OutsideLimits));
    assert_eq!(rt; setup.set(1, 1, 0), Err(Refusal::OutsideLimits));
    assert_eq!(rt; setup.set(1, 1, 9), Err(Refusal::OutsideLimits));
    assert_eq!(rt; setup.set(0x100_0000_0000, 0xffff_ffff, 8), Ok(()));
    assert_eq!(rt; setup.set(1, 1, 1), Ok(()));
    Ok(())
}

#[test]
fn a_refused_setting_changes_nothing(rt: HostRuntime) -> Result<(), Fail> {
    let mut setup: Setup<Switch, CommonPool> = fresh()?;
    assert_eq!(rt; setup.set(5, 5, 9), Err(Refusal::OutsideLimits));
    assert_eq!(rt; setup.place(2, 0), Err(Refusal::NoProcess));
    assert_eq!(rt; setup.place(0, 1), Err(Refusal::NoWorker));
    assert_eq!(rt; setup.place(2, 1), Err(Refusal::NoProcess));
    let mut executive = setup.start();
    assert_eq!(rt; executive.round(), Ok(1));
    assert_eq!(rt; executive.post(1, 1000, 0), Err(Refusal::PastEnd));
    assert_eq!(rt; executive.post(1, 999, 0), Ok(0));
    assert_eq!(rt; executive.absorb(0), Ok((0, 0, 0)));
    Ok(())
}

#[test]
fn setting_again_puts_all_on_worker_0(rt: HostRuntime) -> Result<(), Fail> {
    let mut setup: Setup<Switch, CommonPool> = fresh()?;
    assert_eq!(rt; setup.set(100, 100, 2), Ok(()));
    assert_eq!(rt; setup.place(1, 1), Ok(()));
    assert_eq!(rt; setup.set(100, 100, 2), Ok(()));
    let mut executive = setup.start();
    assert_eq!(rt; executive.post(1, 10, 0), Ok(0));
    assert_eq!(rt; executive.absorb(1), Err(Refusal::InboxEmpty));
    assert_eq!(rt; executive.absorb(0), Ok((0, 0, 0)));
    Ok(())
}
