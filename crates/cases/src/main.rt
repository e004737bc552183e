//! Runs the stored scripts, readable and spoiled, compares what they print with what they should, and says how many
//! agree.

#![tactic(auto)]

use script::play::run_script;
use std::fs;

// The stored scripts are numbered from 0.
const SCRIPTS: u32 = 62;

// Whether a stored script prints what it should.
fn agrees(rt: &HostRuntime, number: u32) -> anyhow::Result<bool> {
    let script = format!(in rt.alloc(); "{number:03}.in")?;
    let wanted = format!(in rt.alloc(); "{number:03}.out")?;
    let bytes = fs::read(rt, script.as_str())?;
    let text = run_script(rt.alloc(), &bytes)?;
    let expected = fs::read(rt, wanted.as_str())?;
    Ok(text.as_bytes() == expected.as_slice())
}

fn main(rt: HostRuntime) -> anyhow::Result<()> {
    let mut agreeing = 0u32;
    for number in 0..SCRIPTS {
        if agrees(&rt, number)? {
            agreeing += 1;
        } else {
            println!(rt; "script {number:03} prints something else")?;
        }
    }
    println!(rt; "{agreeing} of {SCRIPTS} scripts agree")?;
    Ok(())
}
