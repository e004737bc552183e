//! Calls and answers as text, in the words of scripts and of traces.

ghost use Rattle.std.specs.Prelude.{Some};
ghost use Rattle.machine.specs.Text.{answer_words, call_words};

use crate::call::{Answer, Call};
use sequential::event::Line;
use std::fmt;

/// A script's line, without its line feed.
impl fmt::Display for Call {
    ghost output = { λ c. Some (call_words c) };

    fn fmt<W: fmt::Write>(&self, f: &mut fmt::Formatter<W>) -> fmt::Result {
        let (name, a, b, c) = match *self {
            Call::Post(process, time, payload) => ("post", process, time, payload),
            Call::Absorb(worker) => ("absorb", worker, 0, 0),
            Call::Step(worker) => ("step", worker, 0, 0),
            Call::Round => ("round", 0, 0, 0),
            Call::Report(worker) => ("report", worker, 0, 0),
            Call::Collect(most) => ("collect", most, 0, 0),
        };
        write!(f, "{name} {a} {b} {c}")
    }
}

/// A trace's answer: its numbers, of a collection how many lines it hands out and how many remain; or the number of the
/// refusal.
impl fmt::Display for Answer<Vec<Line>> {
    ghost output = { λ a. Some (answer_words a) };

    fn fmt<W: fmt::Write>(&self, f: &mut fmt::Formatter<W>) -> fmt::Result {
        match self {
            Answer::Refused(refusal) => write!(f, "refused {}", refusal.code()),
            Answer::Posted(number) => write!(f, "{number}"),
            Answer::Absorbed(gone, undone, cancelled) => write!(f, "{gone} {undone} {cancelled}"),
            Answer::Stepped(time, process, sends) => write!(f, "{time} {process} {sends}"),
            Answer::Opened(workers) => write!(f, "{workers}"),
            Answer::Told(missing, gvt) => write!(f, "{missing} {gvt}"),
            Answer::Collected(lines, remaining) => write!(f, "{} {remaining}", lines.len()),
        }
    }
}
