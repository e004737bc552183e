//! One line of a script, with the line feed that ends it.

ghost use Rattle.std.specs.Prelude.{◌≡◌};
ghost use Rattle.script.specs.Fields.{parsed};
ghost use Rattle.script.specs.Lines.{asked_for, heading_of, is_text, item_of, model_of, pool_of, word_of};

use crate::field::{at_end, named, spaced, three};
use crate::heading::{COMMON, Heading, ModelKind, PHOLD, PoolKind, RECEIVER, SWITCH};
use crate::item::{Item, PLACE, Word};
use machine::call::Call;

// The most bytes of a line, its line feed among them.
const LONGEST_LINE: usize = 81;

// The longest list of a collection.
const LONGEST_LIST: u64 = 64;

// Lines are bytes and no `str`: a script may hold any, and what is no text is a bad line like others.
// Whether the line is this text.
pub(crate) fn is_text(line: &[u8], text: &str) -> bool
    ensures { result ≡ is_text text.now line.now }
{
    line.strip_prefix(text.as_bytes()).is_some_and(at_end)
}

// The model that the line begins with.
fn model_of(line: &[u8]) -> Option<(ModelKind, &[u8])>
    ensures { parsed result ≡ model_of line.now }
{
    named(line, SWITCH, ModelKind::Switch).or_else(|| named(line, PHOLD, ModelKind::Phold))
}

// The pool that stands there behind one space.
fn pool_of(rest: &[u8]) -> Option<(PoolKind, &[u8])>
    ensures { parsed result ≡ pool_of rest.now }
{
    let rest = rest.strip_prefix(b" ")?;
    named(rest, COMMON, PoolKind::Common).or_else(|| named(rest, RECEIVER, PoolKind::Receiver))
}

// The heading's values.
pub(crate) fn heading_of(line: &[u8]) -> Option<Heading>
    ensures { result ≡ heading_of line.now }
{
    if line.len() > LONGEST_LINE {
        return None;
    }
    let (model, rest) = model_of(line)?;
    let (size, rest) = spaced(rest)?;
    let (setting, rest) = spaced(rest)?;
    let (pool, rest) = pool_of(rest)?;
    let (end, most, workers) = three(rest)?;
    Some(Heading {
        model,
        size,
        setting,
        pool,
        end,
        most,
        workers,
    })
}

// (The calls' words are those that `Call` prints: that each line printed reads back is proved.)
// The word of a call or a placing that the line begins with.
fn word_of(line: &[u8]) -> Option<(Word, &[u8])>
    ensures { parsed result ≡ word_of line.now }
{
    named(line, PLACE, Word::Place)
        .or_else(|| named(line, "post", Word::Post))
        .or_else(|| named(line, "absorb", Word::Absorb))
        .or_else(|| named(line, "step", Word::Step))
        .or_else(|| named(line, "round", Word::Round))
        .or_else(|| named(line, "report", Word::Report))
        .or_else(|| named(line, "collect", Word::Collect))
}

// What a word and its three numbers ask for; unused numbers are 0.
fn asked_for(word: Word, a: u64, b: u64, c: u64) -> Option<Item>
    ensures { result ≡ asked_for word a b c }
{
    match word {
        Word::Place if c == 0 => Some(Item::Place(a, b)),
        Word::Post => Some(Item::Make(Call::Post(a, b, c))),
        Word::Absorb if b == 0 && c == 0 => Some(Item::Make(Call::Absorb(a))),
        Word::Step if b == 0 && c == 0 => Some(Item::Make(Call::Step(a))),
        Word::Round if a == 0 && b == 0 && c == 0 => Some(Item::Make(Call::Round)),
        Word::Report if b == 0 && c == 0 => Some(Item::Make(Call::Report(a))),
        Word::Collect if a <= LONGEST_LIST && b == 0 && c == 0 => Some(Item::Make(Call::Collect(
            a,
        ))),
        _ => None,
    }
}

// What a further line asks for.
pub(crate) fn item_of(line: &[u8]) -> Option<Item>
    ensures { result ≡ item_of line.now }
{
    if line.len() > LONGEST_LINE {
        return None;
    }
    let (word, rest) = word_of(line)?;
    let (a, b, c) = three(rest)?;
    asked_for(word, a, b, c)
}
