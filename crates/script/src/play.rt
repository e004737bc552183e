//! Running a script: what it prints, and what else is done with it.

ghost use Rattle.std.specs.Prelude.{◌≡◌, ℕ, List, ◌++◌, string_bytes, IfOk, MatchResult, OnOk};
ghost use Rattle.executive.specs.Running.{Keeps};
ghost use Rattle.executive.specs.Runs.{answer_of};
ghost use Rattle.law.specs.Law.{lines_told};
ghost use Rattle.machine.specs.declared.plan.Plan.{Plan};
ghost use Rattle.model.specs.Meaning.{Meaning};
ghost use Rattle.pool.specs.Lanes.{Lanes};
ghost use Rattle.script.specs.Case.{TheFirstCaseIsReadAndWrittenSo};
ghost use Rattle.script.specs.Play.{PlaysItem, PlaysItems};
ghost use Rattle.script.specs.Playing.{PlacedBy, Plays, Prints, Reads, Session, Settles, bad_text, end_text};
ghost use Rattle.script.specs.Playing.{kind_lanes};
ghost use Rattle.script.specs.Reading.{Reading, meaning};
ghost use Rattle.sequential.specs.Text.{line_text};
ghost use Rattle.std.specs.List.{flat_map};

use crate::heading::{CALL_NAMES_LINE, HEADING_LINE, Heading, ModelKind, PoolKind};
use crate::item::Item;
use crate::read::{Script, read};
use crate::write::write_end;
use executive::{Executive, Setup};
use machine::call::Answer;
use model::Model;
use model::limits::OutsideLimits;
use model::phold::Phold;
use model::switch::Switch;
use pool::Pool;
use pool::common::CommonPool;
use pool::receiver::ReceiverPool;
use sequential::event::Line;
use sequential::text::{field_names, write_lines};
use std::alloc::{AllocError, Global};

/// What is done with a script over a setup to its heading's values, whatever the model and the pool.
pub trait Player {
    // what may be printed of a script's meaning, over a setup of a model, a pool's lanes and a plan
    ghost prints: { Reading → Meaning → Lanes → Plan → List ℕ → Type 0 };

    fn play<M: Model + Drop, P: Pool + Drop>(
        alloc: Global,
        script: &Script,
        setup: Setup<M, P>,
    ) -> Result<String, AllocError>
        ensures { IfOk result
            (λ t. prints (meaning script.now) (M.meaning setup.model) P.lanes setup.plan (string_bytes t)) };
}

// The bad line alone, if there is one.
fn bad_line(alloc: Global, bad: Option<u64>) -> Result<String, AllocError>
    ensures { IfOk result (λ t. string_bytes t ≡ end_text bad) }
{
    let mut text = String::new(alloc);
    write_end(&mut text, bad)?;
    Ok(text)
}

// Sets up to the heading's values, and plays the script. A refused setting is a bad second line, and comes before a bad
// third line.
fn play_setup<V: Player, M: Model + Drop, P: Pool + Drop>(
    alloc: Global,
    model: M,
    heading: &Heading,
    script: &Script,
) -> Result<String, AllocError>
    ensures { IfOk result
        (λ t. Plays V.prints (M.meaning model) P.lanes heading.now (meaning script.now) (string_bytes t)) }
{
    let mut setup: Setup<M, P> = Setup::fresh(model);
    if setup
        .set(heading.end, heading.most, heading.workers)
        .is_err()
    {
        return bad_line(alloc, Some(HEADING_LINE));
    }
    if script.bad == Some(CALL_NAMES_LINE) {
        return bad_line(alloc, script.bad);
    }
    V::play(alloc, script, setup)
}

// Plays the script over the pool that its heading names; values that make no model are a bad second line.
fn play_model<V: Player, M: Model + Drop>(
    alloc: Global,
    made: Result<M, OutsideLimits>,
    heading: &Heading,
    script: &Script,
) -> Result<String, AllocError>
    ensures { IfOk result (λ t. MatchResult made
        (λ m. Plays V.prints (M.meaning m) (kind_lanes heading.now.pool) heading.now (meaning script.now)
        (string_bytes t))
        (λ _. string_bytes t ≡ bad_text 2)) }
{
    let Ok(model) = made else {
        return bad_line(alloc, Some(HEADING_LINE));
    };
    // a `match` and no `dyn`: a setup's type names its model and its pool
    match heading.pool {
        PoolKind::Common => play_setup::<V, M, CommonPool>(alloc, model, heading, script),
        PoolKind::Receiver => play_setup::<V, M, ReceiverPool>(alloc, model, heading, script),
    }
}

/// Plays a script with the model and over the pool that its heading names; without a heading its bad line is named.
pub fn play_script<V: Player>(alloc: Global, script: &Script) -> Result<String, AllocError>
    ensures { IfOk result (λ t. Reads V.prints (meaning script.now) (string_bytes t)) }
{
    let Some(heading) = script.heading else {
        return bad_line(alloc, script.bad);
    };
    // a `match` and no `dyn`: a setup's type names its model and its pool
    match heading.model {
        ModelKind::Switch => play_model::<V, Switch>(
            alloc,
            Switch::new(heading.size, heading.setting),
            &heading,
            script,
        ),
        ModelKind::Phold => play_model::<V, Phold>(
            alloc,
            Phold::new(heading.size, heading.setting),
            &heading,
            script,
        ),
    }
}

// Writes the lines that an answer hands out.
fn write_answer(text: &mut String, answer: &Answer<Vec<Line>>) -> Result<(), AllocError>
    ensures { OnOk result
        (string_bytes text.new ≡ string_bytes text.old ++ flat_map line_text (lines_told (answer_of answer.now))) }
{
    match answer {
        Answer::Collected(lines, _) => write_lines(text, lines),
        _ => Ok(()),
    }
}

// Makes the call of an item, and writes the lines that it hands out; a placing was done before the start.
fn play_item<M: Model, P: Pool>(
    alloc: Global,
    executive: &mut Executive<M, P>,
    item: Item,
    text: &mut String,
) -> Result<(), AllocError>
    ensures plays { OnOk result (PlaysItem executive.old item text.old text.new executive.new) }
    ensures keeps { Keeps executive.old executive.new }
{
    match item {
        Item::Place(_, _) => Ok(()),
        Item::Make(call) => {
            let answer = executive.make(alloc, call)?;
            write_answer(text, &answer)
        }
    }
}

// Makes the calls of the items, one after the other, and writes the lines that they hand out.
fn play_items<M: Model, P: Pool>(
    alloc: Global,
    executive: &mut Executive<M, P>,
    items: &[Item],
    text: &mut String,
) -> Result<(), AllocError>
    ensures { OnOk result (PlaysItems executive.old items.now text.old text.new executive.new) }
{
    for item in items {
        play_item(alloc, executive, *item, text)?;
    }
    Ok(())
}

// Does the placing of an item; a refused one changes nothing.
fn place_item<M: Model, P: Pool>(setup: &mut Setup<M, P>, item: Item)
    ensures model { setup.new.model ≡ setup.old.model }
    ensures places { PlacedBy (M.meaning setup.old.model) setup.old.plan item setup.new.plan }
{
    if let Item::Place(process, worker) = item {
        let _ = setup.place(process, worker);
    }
}

// Does the placings of the items, one after the other.
fn place_items<M: Model, P: Pool>(setup: &mut Setup<M, P>, items: &[Item])
    ensures model { setup.new.model ≡ setup.old.model }
    ensures settles { Settles (M.meaning setup.old.model) setup.old.plan items.now setup.new.plan }
{
    for item in items {
        place_item(setup, *item);
    }
}

// Running: does the placings, starts, and plays the calls. Printed are the names of the fields, each line as it is
// handed out, and the bad line.
struct Run;

impl Player for Run {
    ghost prints = { Session };

    fn play<M: Model + Drop, P: Pool + Drop>(
        alloc: Global,
        script: &Script,
        mut setup: Setup<M, P>,
    ) -> Result<String, AllocError> {
        place_items(&mut setup, &script.items);
        let mut executive = setup.start();
        let mut text = String::from_str(alloc, field_names())?;
        play_items(alloc, &mut executive, &script.items, &mut text)?;
        write_end(&mut text, script.bad)?;
        Ok(text)
    }
}

/// Runs a script: what it prints.
pub fn run_script(alloc: Global, bytes: &[u8]) -> Result<String, AllocError>
    ensures { IfOk result (λ t. Prints bytes.now (string_bytes t)) }
{
    let script = read(alloc, bytes)?;
    play_script::<Run>(alloc, &script)
}

/// Theorem: the first worked case, as a script and as text.
pub fn the_first_case_is_read_and_written_so()
    ensures { TheFirstCaseIsReadAndWrittenSo }
{}
