//! What a line asks for, from the fourth on.

use machine::call::Call;
use std::fmt;

pub(crate) const PLACE: &str = "place";

// The word that a line begins with, from the fourth line on. It is read before its numbers, which decide whether the
// line is right: a reader of both at once would be seven, one for each word.
#[derive(Clone, Copy, PartialEq, Eq, Debug)]
pub enum Word {
    Place,
    Post,
    Absorb,
    Step,
    Round,
    Report,
    Collect,
}

/// What a line asks for, from the fourth line on: a process is placed on a worker, or a call is made.
// One list of these is a script's lines in their order, which one loop writes; lists of placings and of calls would be
// read, written and played by two loops each.
#[derive(Clone, Copy, PartialEq, Eq, Debug)]
pub enum Item {
    Place(u64, u64),
    Make(Call),
}

/// A further line, without its line feed.
impl fmt::Display for Item {
    ghost use Rattle.std.specs.Prelude.{Some};
    ghost use Rattle.script.specs.Writing.{item_words};

    ghost output = { λ i. Some (item_words i) };

    fn fmt<W: fmt::Write>(&self, f: &mut fmt::Formatter<W>) -> fmt::Result {
        match self {
            Item::Place(process, worker) => {
                let unused = 0u64;
                write!(f, "{PLACE} {process} {worker} {unused}")
            }
            Item::Make(call) => write!(f, "{call}"),
        }
    }
}
