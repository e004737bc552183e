//! A refusal as a number and as text, and the one that values outside their limits are.

ghost use Rattle.std.specs.Prelude.{◌≡◌};
ghost use Rattle.machine.specs.Calls.{code as number_of};

use model::limits::OutsideLimits;
use std::error::Error;
use std::fmt;

/// Why a call is refused, with the number that each refusal is told by.
#[derive(Clone, Copy, PartialEq, Eq, Debug)]
pub enum Refusal {
    OutsideLimits = 1,
    NoProcess = 2,
    NoWorker = 3,
    BeforeGvt = 4,
    PastEnd = 5,
    CapReached = 6,
    LaneShort = 7,
    InboxEmpty = 8,
    NothingPending = 9,
    RoundOpen = 10,
    NoRound = 11,
    Reported = 12,
}

impl Refusal {
    /// The number that a refusal is told by.
    pub fn code(&self) -> u8
        ensures { result ≡ number_of self.now }
    {
        *self as u8
    }
}

impl From<OutsideLimits> for Refusal {
    ghost use Rattle.std.specs.Prelude.{◌≡◌};
    ghost use Rattle.machine.specs.declared.refusal.Refusal.TheVariants.{OutsideLimits};

    ghost from_gives = { λ _ r. r ≡ OutsideLimits };

    fn from(_e: OutsideLimits) -> Refusal {
        Self::OutsideLimits
    }
}

impl fmt::Display for Refusal {
    ghost use Rattle.std.specs.Prelude.{Some};
    ghost use Rattle.machine.specs.Text.{refusal_text};

    ghost output = { λ r. Some (refusal_text r) };

    fn fmt<W: fmt::Write>(&self, f: &mut fmt::Formatter<W>) -> fmt::Result {
        f.write_str(match self {
            Refusal::OutsideLimits => "a value outside its limits",
            Refusal::NoProcess => "no such process",
            Refusal::NoWorker => "no such worker",
            Refusal::BeforeGvt => "a time before GVT",
            Refusal::PastEnd => "a time at or past the end",
            Refusal::CapReached => "as many posts as the cap allows",
            Refusal::LaneShort => "too few buffers in a draw lane",
            Refusal::InboxEmpty => "an empty inbox",
            Refusal::NothingPending => "nothing pending",
            Refusal::RoundOpen => "a round is open",
            Refusal::NoRound => "no round is open",
            Refusal::Reported => "the worker has reported",
        })
    }
}

impl Error for Refusal {}
