//! The sequential run on small loads.

use model::state::State;
use model::switch::Switch;
use sequential::event::{Event, Line, Post, Verdict};
use sequential::limits::Limits;
use sequential::run::{RunError, run};
use sequential::text::write_lines;
use std::alloc::Global;
use std::test::Fail;

// The lines of two ports that serve two cells.
fn two_cells(alloc: Global) -> Result<Vec<Line>, Fail> {
    let model = Switch::new(2, 3)?;
    let limits = Limits::new(100, 100)?;
    let posts = [Post::new(0, 10, 1), Post::new(1, 14, 0)];
    Ok(run(alloc, &model, &limits, &posts)?)
}

#[test]
fn cells_are_served_in_key_order(rt: HostRuntime) -> Result<(), Fail> {
    let lines = two_cells(rt.alloc())?;
    assert!(rt; lines.len() == 3);
    let from_outside = Event {
        time: 10,
        process: 0,
        sender: 255,
        number: 0,
        payload: 1,
    };
    assert_eq!(rt; lines[0].event, from_outside);
    let sent_on = Event {
        time: 13,
        process: 1,
        sender: 0,
        number: 0,
        payload: 0,
    };
    assert_eq!(rt; lines[1].event, sent_on);
    let last = Line {
        event: Event {
            time: 14,
            process: 1,
            sender: 255,
            number: 1,
            payload: 0,
        },
        verdict: Verdict::Fine,
        state: State {
            w0: 19,
            w1: 2,
            w2: 2,
            w3: 0,
        },
    };
    assert_eq!(rt; lines[2], last);
    Ok(())
}

#[test]
fn lines_are_written_one_behind_the_other(rt: HostRuntime) -> Result<(), Fail> {
    let lines = two_cells(rt.alloc())?;
    let mut text = String::new(rt.alloc());
    write_lines(&mut text, &lines)?;
    assert!(rt;
        text.as_str()
            == "10 0 255 0 1 0 0 13 1 0 0\n13 1 0 0 0 0 0 16 1 0 0\n14 1 255 1 0 0 0 19 2 2 0\n"
    );
    Ok(())
}

#[test]
fn a_post_that_cannot_be_accepted_is_named(rt: HostRuntime) -> Result<(), Fail> {
    let model = Switch::new(2, 3)?;
    let limits = Limits::new(100, 2)?;
    let good = Post::new(1, 99, 0);
    let late = Post::new(1, 100, 0);
    let nobody = Post::new(2, 5, 0);
    assert!(rt; run(rt.alloc(), &model, &limits, &[good, late]).err() == Some(RunError::Unfit(1)));
    assert!(rt; run(rt.alloc(), &model, &limits, &[nobody]).err() == Some(RunError::Unfit(0)));
    assert!(rt;
        run(rt.alloc(), &model, &limits, &[good, good, good]).err() == Some(RunError::Unfit(2))
    );
    Ok(())
}
