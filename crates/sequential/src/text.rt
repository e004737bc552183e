//! How a line is written: its fields in base ten, with one space between them, ended by a line feed.

ghost use Rattle.std.specs.Prelude.{Some, ◌≡◌, [], ◌∷◌, ◌++◌, string_bytes, decimal, OnOk};
ghost use Rattle.std.specs.List.{flat_map};
ghost use Rattle.sequential.specs.Text.{field_names, line_row, line_text, spaced};

use crate::event::{Event, Line};
use model::state::State;
use std::alloc::AllocError;
use std::fmt;

/// The names of a line's fields, in order, ended by a line feed.
pub fn field_names() -> &'static str
    ensures { result.now ≡ field_names }
{
    "time process sender number payload layer code w0 w1 w2 w3\n"
}

/// Writes a figure behind the text.
// for callers outside: a line displays itself
// Each writer here says what it appends in the words of `String`: a definition would say no more.
pub fn write_figure(text: &mut String, n: u64) -> Result<(), AllocError>
    ensures { OnOk result (string_bytes text.new ≡ string_bytes text.old ++ decimal n) }
{
    write!(text, "{n}")
}

/// Writes figures behind the text, each behind one space, and a line feed.
// for callers outside: a line displays itself
pub fn write_spaced(text: &mut String, numbers: &[u64]) -> Result<(), AllocError>
    ensures { OnOk result (string_bytes text.new ≡ string_bytes text.old ++ spaced numbers.now) }
{
    for n in numbers {
        write!(text, " {n}")?;
    }
    text.push('\n')
}

impl fmt::Display for Line {
    ghost output = { λ l. Some (line_row l) };

    fn fmt<W: fmt::Write>(&self, f: &mut fmt::Formatter<W>) -> fmt::Result {
        let Event {
            time,
            process,
            sender,
            number,
            payload,
        } = self.event;
        let State { w0, w1, w2, w3 } = self.state;
        let (layer, code) = (self.verdict.layer(), self.verdict.code());
        write!(f, "{time} {process} {sender} {number} {payload}")?;
        write!(f, " {layer} {code} {w0} {w1} {w2} {w3}")
    }
}

/// Writes the line behind the text, and a line feed.
pub fn write_line(text: &mut String, line: &Line) -> Result<(), AllocError>
    ensures { OnOk result (string_bytes text.new ≡ string_bytes text.old ++ line_text line.now) }
{
    writeln!(text, "{line}")
}

/// Writes the lines behind the text, one after the other.
pub fn write_lines(text: &mut String, lines: &[Line]) -> Result<(), AllocError>
    ensures { OnOk result (string_bytes text.new ≡ string_bytes text.old ++ flat_map line_text lines.now) }
{
    for line in lines {
        write_line(text, line)?;
    }
    Ok(())
}
