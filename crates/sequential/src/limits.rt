//! The limits of a run.

ghost use Rattle.std.specs.Prelude.{◌≡◌, false, ◌&&◌, MatchResult, ◌^◌, ◌<◌, ◌≤◌};

use model::limits::{LATEST, OutsideLimits};

/// When a run ends, 1 to 2^40, and the cap: the most messages of one sender, 1 to 2^32 - 1.
#[derive(Clone, Copy)]
pub struct Limits {
    pub end: u64,
    pub most: u64,
    ghost ends: { (1 ≤ end) × (end ≤ 2 ^ 40) },
    ghost caps: { (1 ≤ most) × (most < 2 ^ 32) },
}

impl Limits {
    ghost use Rattle.sequential.specs.Events.{cap_fits, end_fits};

    /// An end of 1 to 2^40 and a cap of 1 to 2^32 - 1; other values are refused.
    pub fn new(end: u64, most: u64) -> Result<Limits, OutsideLimits>
        ensures { MatchResult result (λ u. (u.end ≡ end) × (u.most ≡ most))
            (λ _. end_fits end && cap_fits most ≡ false) }
    {
        if end < 1 || end > LATEST || most < 1 || most > GREATEST_CAP {
            return Err(OutsideLimits);
        }
        Ok(Limits { end, most })
    }
}

const GREATEST_CAP: u64 = 0xffff_ffff;
