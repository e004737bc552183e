//! Applying an event: every fault, the order of two, and the edges of the end and the cap.

use crate::fixed::{faulty, wanting};
use model::reaction::{Few, Want};
use model::state::State;
use sequential::apply::apply;
use sequential::event::{Event, Outcome, Process, Verdict};
use sequential::limits::Limits;
use std::process::Abort;
use std::test::Fail;

const EVENT: Event = Event {
    time: 10,
    process: 1,
    sender: 255,
    number: 0,
    payload: 0,
};

const BEFORE: Process = Process {
    state: State {
        w0: 5,
        w1: 6,
        w2: 7,
        w3: 8,
    },
    count: 20,
};

const GOOD: Want = Want {
    receiver: 7,
    delay: 1,
    payload: 9,
};

const NOBODY: Want = Want {
    receiver: 8,
    delay: 0,
    payload: 9,
};

const AT_ONCE: Want = Want {
    receiver: 0,
    delay: 0,
    payload: 9,
};

const TOO_LONG: Want = Want {
    receiver: 0,
    delay: 0x100_0000_0001,
    payload: 9,
};

// What a model with these wants does at the event, under an end of 100 and a cap.
fn outcome(wants: Few<Want>, end: u64, most: u64) -> Result<Outcome, Fail> {
    let model = wanting(wants);
    let limits = Limits::new(end, most)?;
    Ok(apply(&model, &limits, &EVENT, &BEFORE))
}

// A fault leaves the state and sends nothing.
fn check_fault(rt: &impl Abort, r: Outcome, verdict: Verdict, layer: u8, code: u8) {
    assert_eq!(rt;
        r,
        Outcome {
            verdict,
            state: BEFORE.state,
            sends: Few::Nothing,
        }
    );
    assert!(rt; r.verdict.layer() == layer && r.verdict.code() == code);
}

#[test]
fn each_fault_has_its_layer_and_code(rt: HostRuntime) -> Result<(), Fail> {
    let limits = Limits::new(100, 100)?;
    let model = faulty();
    check_fault(
        &rt,
        apply(&model, &limits, &EVENT, &BEFORE),
        Verdict::ModelFault(9),
        1,
        9,
    );
    check_fault(
        &rt,
        outcome(Few::One(NOBODY), 100, 100)?,
        Verdict::NoReceiver,
        2,
        1,
    );
    check_fault(
        &rt,
        outcome(Few::One(AT_ONCE), 100, 100)?,
        Verdict::BadDelay,
        2,
        2,
    );
    check_fault(
        &rt,
        outcome(Few::One(TOO_LONG), 100, 100)?,
        Verdict::BadDelay,
        2,
        2,
    );
    check_fault(
        &rt,
        outcome(Few::One(GOOD), 100, 20)?,
        Verdict::OverCap,
        2,
        3,
    );
    Ok(())
}

#[test]
fn the_first_want_that_fails_decides(rt: HostRuntime) -> Result<(), Fail> {
    check_fault(
        &rt,
        outcome(Few::Two(AT_ONCE, NOBODY), 100, 20)?,
        Verdict::BadDelay,
        2,
        2,
    );
    check_fault(
        &rt,
        outcome(Few::Two(NOBODY, AT_ONCE), 100, 20)?,
        Verdict::NoReceiver,
        2,
        1,
    );
    check_fault(
        &rt,
        outcome(Few::Two(GOOD, NOBODY), 100, 20)?,
        Verdict::NoReceiver,
        2,
        1,
    );
    Ok(())
}

#[test]
fn sends_due_at_the_end_are_struck_out(rt: HostRuntime) -> Result<(), Fail> {
    let sent = Event {
        time: 11,
        process: 7,
        sender: 1,
        number: 20,
        payload: 9,
    };
    let r = outcome(Few::One(GOOD), 11, 100)?;
    assert!(rt; r.verdict == Verdict::Fine && r.sends.len() == 0);
    assert_eq!(rt; outcome(Few::One(GOOD), 12, 100)?.sends, Few::One(sent));
    let later = Want {
        receiver: 0,
        delay: 5,
        payload: 3,
    };
    assert_eq!(rt;
        outcome(Few::Two(later, GOOD), 15, 100)?.sends,
        Few::One(sent)
    );
    Ok(())
}

#[test]
fn struck_sends_do_not_count_against_the_cap(rt: HostRuntime) -> Result<(), Fail> {
    let later = Want {
        receiver: 0,
        delay: 5,
        payload: 3,
    };
    assert_eq!(rt; outcome(Few::Two(GOOD, later), 15, 21)?.sends.len(), 1);
    assert_eq!(rt; outcome(Few::Two(GOOD, later), 16, 22)?.sends.len(), 2);
    check_fault(
        &rt,
        outcome(Few::Two(GOOD, later), 16, 21)?,
        Verdict::OverCap,
        2,
        3,
    );
    Ok(())
}
