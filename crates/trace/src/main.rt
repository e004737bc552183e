//! Runs a script, from the file that is named or from standard input, and prints each line's call with its answer.

#![tactic(auto)]

use executive::Setup;
use model::Model;
use pool::Pool;
use script::input::read_input;
use script::item::Item;
use script::play::{Player, play_script};
use script::read::{Script, read};
use script::write::write_end;
use std::alloc::{AllocError, Global};

// Tracing: each placing and each call with its answer, and then the bad line.
struct Trace;

impl Player for Trace {
    ghost use Rattle.std.specs.Prelude.{⊤};

    // nothing is claimed of what a trace prints
    ghost prints = { λ _ _ _ _ _. ⊤ };

    fn play<M: Model + Drop, P: Pool + Drop>(
        alloc: Global,
        script: &Script,
        mut setup: Setup<M, P>,
    ) -> Result<String, AllocError> {
        let mut text = String::new(alloc);
        for item in &script.items {
            if let Item::Place(process, worker) = item {
                match setup.place(*process, *worker) {
                    Ok(()) => writeln!(text, "{item} -> ok")?,
                    Err(refusal) => writeln!(text, "{item} -> refused {}", refusal.code())?,
                }
            }
        }
        let mut executive = setup.start();
        for item in &script.items {
            if let Item::Make(call) = item {
                let answer = executive.make(alloc, *call)?;
                writeln!(text, "{call} -> {answer}")?;
            }
        }
        write_end(&mut text, script.bad)?;
        Ok(text)
    }
}

fn main(rt: HostRuntime) -> anyhow::Result<()> {
    let bytes = read_input(&rt)?;
    let script = read(rt.alloc(), &bytes)?;
    rt.print(play_script::<Trace>(rt.alloc(), &script)?)?;
    Ok(())
}
