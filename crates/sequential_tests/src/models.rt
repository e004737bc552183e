//! Both models at their edges.

use model::Model;
use model::limits::OutsideLimits;
use model::phold::Phold;
use model::reaction::{Few, Reaction, Want};
use model::state::State;
use model::switch::Switch;
use std::test::Fail;

const ZEROS: State = State {
    w0: 0,
    w1: 0,
    w2: 0,
    w3: 0,
};

const LAST: u64 = 0x100_0000_0000;

#[test]
fn sizes_and_service_times_have_limits(rt: HostRuntime) {
    assert!(rt; Switch::new(0, 3).is_err() && Switch::new(33, 3).is_err());
    assert!(rt; Switch::new(2, 0).is_err() && Switch::new(2, 1001).is_err());
    assert!(rt; Switch::new(1, 1).is_ok() && Switch::new(32, 1000).is_ok());
    assert!(rt; Phold::new(0, 7).is_err() && Phold::new(33, 7).is_err());
    assert!(rt; Phold::new(1, 0).is_ok() && Phold::new(32, u64::MAX).is_ok());
}

#[test]
fn a_port_serves_and_forwards(rt: HostRuntime) -> Result<(), Fail> {
    let m = Switch::new(3, 5)?;
    let busy = State {
        w0: 12,
        w1: 1,
        w2: 0,
        w3: 7,
    };
    let next = State {
        w0: 17,
        w1: 2,
        w2: 2,
        w3: 7,
    };
    assert_eq!(rt;
        m.react(1, &busy, 10, 0),
        Reaction::Next(next, Few::Nothing)
    );
    let onward = Want {
        receiver: 2,
        delay: 7,
        payload: 254,
    };
    assert_eq!(rt;
        m.react(1, &busy, 10, 255),
        Reaction::Next(next, Few::One(onward))
    );
    Ok(())
}

#[test]
fn too_many_hops_come_before_too_late(rt: HostRuntime) -> Result<(), Fail> {
    let m = Switch::new(3, 5)?;
    assert_eq!(rt; m.react(0, &ZEROS, LAST, 256), Reaction::Fault(2));
    assert_eq!(rt; m.react(0, &ZEROS, LAST - 4, 255), Reaction::Fault(1));
    assert_eq!(rt; m.react(0, &ZEROS, u64::MAX, 0), Reaction::Fault(1));
    let last = State {
        w0: LAST,
        w1: 1,
        w2: 0,
        w3: 0,
    };
    assert_eq!(rt;
        m.react(0, &ZEROS, LAST - 5, 0),
        Reaction::Next(last, Few::Nothing)
    );
    Ok(())
}

#[test]
fn switch_words_wrap(rt: HostRuntime) -> Result<(), Fail> {
    let m = Switch::new(1, 1)?;
    let full = State {
        w0: 9,
        w1: u64::MAX,
        w2: u64::MAX,
        w3: 0,
    };
    assert_eq!(rt;
        m.react(0, &full, 4, 0),
        Reaction::Next(
            State {
                w0: 10,
                w1: 0,
                w2: 4,
                w3: 0,
            },
            Few::Nothing,
        )
    );
    Ok(())
}

#[test]
fn process_numbers_count_modulo_the_size(rt: HostRuntime) -> Result<(), Fail> {
    let m = Switch::new(3, 5)?;
    assert_eq!(rt; m.react(2, &ZEROS, 0, 1), m.react(5, &ZEROS, 0, 1));
    let wraps = Want {
        receiver: 0,
        delay: 5,
        payload: 0,
    };
    assert_eq!(rt;
        m.react(2, &ZEROS, 0, 1),
        Reaction::Next(
            State {
                w0: 5,
                w1: 1,
                w2: 0,
                w3: 0,
            },
            Few::One(wraps),
        )
    );
    let p = Phold::new(3, 10)?;
    assert_eq!(rt;
        p.initial(2),
        State {
            w0: 12,
            w1: 0,
            w2: 0,
            w3: 0,
        }
    );
    assert_eq!(rt; p.initial(3), p.initial(0));
    Ok(())
}

#[test]
fn phold_words_wrap(rt: HostRuntime) -> Result<(), Fail> {
    let p = Phold::new(4, u64::MAX)?;
    assert_eq!(rt; p.initial(1), ZEROS);
    let full = State {
        w0: u64::MAX,
        w1: u64::MAX,
        w2: 5,
        w3: 6,
    };
    let w0 = 13525302890751722018;
    let sent = Want {
        receiver: 0,
        delay: 526,
        payload: 77,
    };
    assert_eq!(rt;
        p.react(0, &full, 3, 77),
        Reaction::Next(
            State {
                w0,
                w1: 0,
                w2: 5,
                w3: 6,
            },
            Few::One(sent),
        )
    );
    Ok(())
}
