//! Lists of calls: two groups in their order, and one alone.

use crate::fixture::fresh;
use executive::Setup;
use executive::runs::{run_calls, run_groups};
use machine::call::{Answer, Call};
use model::switch::Switch;
use pool::common::CommonPool;
use std::test::Fail;

// A cell is posted to port 0, served and passed.
const SERVED: [Call; 5] = [
    Call::Post(0, 10, 0),
    Call::Absorb(0),
    Call::Step(0),
    Call::Round,
    Call::Report(0),
];

const COLLECTED: [Call; 2] = [Call::Collect(4), Call::Post(1, 99, 0)];

#[test]
fn the_first_group_comes_first(rt: HostRuntime) -> Result<(), Fail> {
    let setup: Setup<Switch, CommonPool> = fresh()?;
    let (first, second) = run_groups(rt.alloc(), setup, &SERVED, &COLLECTED)?;
    assert_eq!(rt; first.answers.len(), 5);
    assert_eq!(rt; (first.gvt, first.out), (1000, 1));
    assert_eq!(rt; (second.gvt, second.out), (1000, 0));
    assert!(rt; second.answers.len() == 2);
    assert!(rt; matches!(second.answers[0], Answer::Collected(_, 0)));
    assert!(rt; matches!(second.answers[1], Answer::Refused(_)));
    Ok(())
}

#[test]
fn calls_alone_are_answered(rt: HostRuntime) -> Result<(), Fail> {
    let setup: Setup<Switch, CommonPool> = fresh()?;
    let group = run_calls(rt.alloc(), setup, &COLLECTED)?;
    assert_eq!(rt; (group.gvt, group.out), (0, 1));
    assert!(rt; group.answers.len() == 2);
    assert!(rt; matches!(group.answers[1], Answer::Posted(0)));
    Ok(())
}
