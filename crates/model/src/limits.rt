//! The limits of models and times, and the error of a value outside them.

ghost use Rattle.std.specs.Prelude.{◌≡◌, ◌≤◌};

use std::error::Error;
use std::fmt;

/// 2^40: no run ends later, no delay is longer, and no cell departs later.
pub const LATEST: u64 = 1 << 40;

/// The most processes of a model.
pub const PROCESSES: usize = 32;

/// A value lies outside its limits.
#[derive(Clone, Copy, PartialEq, Eq, Debug)]
pub struct OutsideLimits;

impl fmt::Display for OutsideLimits {
    ghost use Rattle.std.specs.Prelude.{Some, codes};

    ghost output = { λ _. Some (codes "a value outside its limits") };

    fn fmt<W: fmt::Write>(&self, f: &mut fmt::Formatter<W>) -> fmt::Result {
        f.write_str("a value outside its limits")
    }
}

impl Error for OutsideLimits {}

/// How many processes a model has: 1 to 32.
#[derive(Clone, Copy, PartialEq, Eq, Debug)]
pub struct Size {
    pub(crate) value: u8,
    ghost fits: { (1 ≤ value) × (value ≤ 32) },
}

impl TryFrom<u64> for Size {
    ghost use Rattle.std.specs.Prelude.{false, MatchResult};
    ghost use Rattle.model.specs.Formulas.{size_fits};

    type Error = OutsideLimits;

    ghost try_from_gives = { λ n r. MatchResult r (λ s. s.value ≡ n) (λ _. size_fits n ≡ false) };

    fn try_from(size: u64) -> Result<Size, OutsideLimits> {
        if size < 1 || size > PROCESSES as u64 {
            return Err(OutsideLimits);
        }
        Ok(Size { value: size as u8 })
    }
}
