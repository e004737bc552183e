//! Writing a script.

ghost use Rattle.std.specs.Prelude.{◌≡◌, ◌++◌, string_bytes, OnOk};
ghost use Rattle.script.specs.Playing.{end_text};
ghost use Rattle.script.specs.Writing.{script_text, ReadsBack};

use crate::heading::{CALL_NAMES, HEADING_NAMES, Heading};
use crate::item::Item;
use std::alloc::AllocError;

/// Writes a script behind the text. What is written of a proper script reads back as the same.
pub fn write_script(text: &mut String, heading: &Heading, items: &[Item]) -> Result<(), AllocError>
    ensures written { OnOk result (string_bytes text.new ≡ string_bytes text.old ++ script_text heading.now items.now) }
    ensures reads { OnOk result (ReadsBack heading.now items.now) }
{
    writeln!(text, "{HEADING_NAMES}\n{heading}\n{CALL_NAMES}")?;
    for item in items {
        writeln!(text, "{item}")?;
    }
    Ok(())
}

pub fn write_end(text: &mut String, bad: Option<u64>) -> Result<(), AllocError>
    ensures { OnOk result (string_bytes text.new ≡ string_bytes text.old ++ end_text bad) }
{
    match bad {
        None => Ok(()),
        Some(number) => writeln!(text, "line {number}"),
    }
}
