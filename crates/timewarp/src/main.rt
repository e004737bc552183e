//! Runs a script, from the file that is named or from standard input, and prints its lines.

#![tactic(auto)]

use script::input::read_input;
use script::play::run_script;

fn main(rt: HostRuntime) -> anyhow::Result<()> {
    let bytes = read_input(&rt)?;
    rt.print(run_script(rt.alloc(), &bytes)?)?;
    Ok(())
}
