//! Reading a script, line by line.

ghost use Rattle.std.specs.Prelude.{◌≡◌, ◌<◌, false, [], length, drop, slice_index_or, IfOk, OnOk, Some};
ghost use Rattle.script.specs.Lines.{lines_of};
ghost use Rattle.script.specs.Reading.{is_call, items_from, meaning, next_of, reading, stops_at};
ghost use Rattle.script.specs.Writing.{WrittenSo};

use crate::heading::{
    CALL_NAMES, CALL_NAMES_LINE, HEADING_LINE, HEADING_NAMES, HEADING_NAMES_LINE, Heading,
};
use crate::item::Item;
use crate::line::{heading_of, is_text, item_of};
use std::alloc::{AllocError, Global};

/// What the bytes of a script mean: its heading, where the first two lines are right; what its right lines ask for, up
/// to the first wrong one; and the number of the first wrong or missing line.
// A line can be bad with and without a heading, so an enum by the heading would have `bad` in both of its variants.
#[derive(Drop)]
pub struct Script {
    pub heading: Option<Heading>,
    pub items: Vec<Item>,
    pub bad: Option<u64>,
}

// The first line that is left, with the line feed that ends it if it has one, and what follows it. Where no byte is
// left the line has none.
fn next_line(rest: &[u8]) -> (&[u8], &[u8])
    ensures line { result.0.now ≡ slice_index_or (lines_of rest.now) 0 [] }
    ensures others { lines_of result.1.now ≡ drop 1 (lines_of rest.now) }
    ensures fewer { 0 < length rest.now → length result.1.now < length rest.now }
{
    match rest.iter().position(|byte| matches!(*byte as char, '\n')) {
        Some(feed) => rest.split_at(feed + 1),
        None => rest.split_at(rest.len()),
    }
}

fn is_call(item: &Item) -> bool
    ensures { result ≡ is_call item.now }
{
    matches!(item, Item::Make(_))
}

// What a further line asks for: no process is placed behind a call.
fn next_of(begun: bool, line: &[u8]) -> Option<Item>
    ensures { result ≡ next_of begun line.now }
{
    item_of(line).filter(|item| is_call(item) || !begun)
}

// What the lines from the fourth on ask for.
fn read_items(alloc: Global, heading: Heading, lines: &[u8]) -> Result<Script, AllocError>
    ensures { IfOk result (λ s. meaning s ≡ items_from heading [] false 4 (lines_of lines.now)) }
{
    let mut items = Vec::new(alloc);
    let mut begun = false;
    let mut number = CALL_NAMES_LINE + 1;
    let mut rest = lines;
    // not `str::lines`: it drops line feeds, and a line that has none is wrong
    while !rest.is_empty() {
        let (line, others) = next_line(rest);
        let Some(item) = next_of(begun, line) else {
            return Ok(Script {
                heading: Some(heading),
                items,
                bad: Some(number),
            });
        };
        begun = is_call(&item);
        items.push(item)?;
        number += 1;
        rest = others;
    }
    Ok(Script {
        heading: Some(heading),
        items,
        bad: None,
    })
}

// A script with no right line from the fourth on.
fn stopped(alloc: Global, heading: Option<Heading>, bad: u64) -> Script
    ensures { meaning result ≡ stops_at bad heading [] }
{
    Script {
        heading,
        items: Vec::new(alloc),
        bad: Some(bad),
    }
}

/// Reads a script; it fails for want of memory alone. A script with no wrong line is what is written of its heading
/// and its items.
pub fn read(alloc: Global, bytes: &[u8]) -> Result<Script, AllocError>
    ensures means { IfOk result (λ s. meaning s ≡ reading bytes.now) }
    ensures written { OnOk result (WrittenSo bytes.now) }
{
    let (names, rest) = next_line(bytes);
    if !is_text(names, HEADING_NAMES) {
        return Ok(stopped(alloc, None, HEADING_NAMES_LINE));
    }
    let (values, rest) = next_line(rest);
    let Some(heading) = heading_of(values) else {
        return Ok(stopped(alloc, None, HEADING_LINE));
    };
    let (names, rest) = next_line(rest);
    if !is_text(names, CALL_NAMES) {
        return Ok(stopped(alloc, Some(heading), CALL_NAMES_LINE));
    }
    read_items(alloc, heading, rest)
}
