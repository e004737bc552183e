//! What the first lines of a script say.

use std::fmt;

// The first line, which names the values of the second, and the third, which names the parts of a call.
pub(crate) const HEADING_NAMES: &str = "model size setting pool end cap workers";

pub(crate) const CALL_NAMES: &str = "call a b c";

/// The numbers of these two lines, and of the line of the values between them.
pub const HEADING_NAMES_LINE: u64 = 1;

pub const HEADING_LINE: u64 = 2;

pub const CALL_NAMES_LINE: u64 = 3;

// The words of models and pools, and the word of a placing.
pub(crate) const SWITCH: &str = "switch";

pub(crate) const PHOLD: &str = "phold";

pub(crate) const COMMON: &str = "common";

pub(crate) const RECEIVER: &str = "receiver";

/// The model that a script names.
#[derive(Clone, Copy, PartialEq, Eq, Debug)]
pub enum ModelKind {
    Switch,
    Phold,
}

impl fmt::Display for ModelKind {
    ghost use Rattle.std.specs.Prelude.{Some};
    ghost use Rattle.script.specs.Writing.{model_text};

    ghost output = { λ m. Some (model_text m) };

    fn fmt<W: fmt::Write>(&self, f: &mut fmt::Formatter<W>) -> fmt::Result {
        f.write_str(match self {
            ModelKind::Switch => SWITCH,
            ModelKind::Phold => PHOLD,
        })
    }
}

/// The pool that a script names.
#[derive(Clone, Copy, PartialEq, Eq, Debug)]
pub enum PoolKind {
    Common,
    Receiver,
}

impl fmt::Display for PoolKind {
    ghost use Rattle.std.specs.Prelude.{Some};
    ghost use Rattle.script.specs.Writing.{pool_word};

    ghost output = { λ p. Some (pool_word p) };

    fn fmt<W: fmt::Write>(&self, f: &mut fmt::Formatter<W>) -> fmt::Result {
        f.write_str(match self {
            PoolKind::Common => COMMON,
            PoolKind::Receiver => RECEIVER,
        })
    }
}

/// The values of the second line. The setting is the service time or the seed, and `most` is the cap.
// A field for each column of the layout: a kind that held its own setting would part what the line has in one row.
#[derive(Clone, Copy, PartialEq, Eq, Debug)]
pub struct Heading {
    pub model: ModelKind,
    pub size: u64,
    pub setting: u64,
    pub pool: PoolKind,
    pub end: u64,
    pub most: u64,
    pub workers: u64,
}

/// The second line, without its line feed.
impl fmt::Display for Heading {
    ghost use Rattle.std.specs.Prelude.{Some};
    ghost use Rattle.script.specs.Writing.{heading_words};

    ghost output = { λ h. Some (heading_words h) };

    fn fmt<W: fmt::Write>(&self, f: &mut fmt::Formatter<W>) -> fmt::Result {
        let Heading {
            model,
            size,
            setting,
            pool,
            end,
            most,
            workers,
        } = *self;
        write!(f, "{model} {size} {setting} {pool} {end} {most} {workers}")
    }
}
