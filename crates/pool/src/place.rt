//! Where a buffer is, and which sides and workers there are.

ghost use Rattle.std.specs.Prelude.{◌≡◌};
ghost use Rattle.pool.specs.Lanes.{is_pair, is_out};

use crate::{OUTSIDE_SIDE, WORKERS};

/// Where a buffer is.
// No `Option<u8>`: its two states have names, which the clauses of every call speak of.
#[derive(Clone, Copy, PartialEq, Eq)]
pub enum Place {
    Out,
    Lane(u8),
}

impl Place {
    pub fn is_out(self) -> bool
        ensures { result ≡ is_out self }
    {
        matches!(self, Place::Out)
    }
}

/// Whether this is a sending side, a worker or the outside, and a receiving worker.
pub fn is_pair(side: u8, worker: u8) -> bool
    ensures { result ≡ is_pair side worker }
{
    side <= OUTSIDE_SIDE && (worker as usize) < WORKERS
}
