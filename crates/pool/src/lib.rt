//! Buffer pools: 256 buffers, each out or in one lane, what a pool means, and the two that come with the product.

#![tactic(auto)]

pub mod common;
pub mod grant;
pub mod laned;
pub mod place;
pub mod receiver;
mod shelf;
mod stack;

ghost use Rattle.std.specs.Prelude.{◌≡◌, ℕ, ◌<◌, true, List, length};
ghost use Rattle.pool.specs.declared.place.Place.{Place as Spot};
ghost use Rattle.pool.specs.Lanes.{Lanes, is_pair, lies, lent};
ghost use Rattle.pool.specs.Calls.{DrawnOne, takes_in, handed_in};
ghost use Rattle.pool.specs.Pools.{common_lanes, receiver_lanes};

use crate::common::CommonPool;
use crate::grant::Grant;
use crate::place::is_pair;
use crate::receiver::ReceiverPool;

/// How many buffers there are.
pub const BUFFERS: usize = 256;

/// How many workers there can be: they are numbered from 0.
pub const WORKERS: usize = 8;

/// The outside as a sending side. Each worker is the side of its own number.
pub const OUTSIDE_SIDE: u8 = 8;

/// A pool's meaning is its lanes and where each buffer is; each call moves its own buffer at most.
// A pair is two numbers and no struct: a call refuses what is no pair, so a struct would promise nothing of them.
// `hand_back` and `take_back` answer yes or no, as the rules have it: an error type would say no more than no.
pub trait Pool {
    // the lanes of each pair, and the places of a new pool
    ghost lanes: { Lanes };

    // where each buffer is
    ghost places: { Self → List Spot };

    /// A new pool.
    fn make() -> Self
        ensures { places result ≡ lanes.full };

    /// Takes one buffer of the pair's draw lane out. Refused exactly if that lane is empty or the pair is none.
    /// Which buffer of the lane is undecided: the contract names none, and a caller may not count on one.
    fn draw(&mut self, side: u8, worker: u8) -> Option<Grant>
        ensures { DrawnOne lanes (places self.old) (places self.new) side worker result };

    /// Puts the buffer of an unsent grant into the pair's draw lane. Answers no, with every place kept, if it is not
    /// out or the pair is none.
    fn hand_back(&mut self, grant: Grant, side: u8, worker: u8) -> bool
        ensures answer { result ≡ takes_in side worker grant.buffer (places self.old) }
        ensures after { places self.new
            ≡ handed_in (lanes.draw side worker) side worker grant.buffer (places self.old) };

    /// Puts a buffer that was used into the pair's return lane. Answers no, with every place kept, if it is not out
    /// or the pair is none.
    fn take_back(&mut self, buffer: u8, side: u8, worker: u8) -> bool
        ensures answer { result ≡ takes_in side worker buffer (places self.old) }
        ensures after { places self.new ≡ handed_in (lanes.return side worker) side worker buffer (places self.old) };

    /// How many buffers the lane holds: 0 if the pool has no such lane.
    fn count(&self, lane: u64) -> u64
        ensures { result ≡ lies lane (places self.now) };

    // there are 256 buffers, in a new pool too
    ghost sized: { (p : Self) → length (places p) ≡ 256 };

    ghost fresh: { length lanes.full ≡ 256 };

    // a new pool has no buffer out
    ghost unlent: { lent lanes.full ≡ 0 };

    // in a new pool no draw lane of a pair is empty
    ghost stocked: { (i j : ℕ) → is_pair i j ≡ true → 0 < lies (lanes.draw i j) lanes.full };

    // lanes have numbers below 256
    ghost low: { (i j : ℕ) → is_pair i j ≡ true → (lanes.draw i j < 256) × (lanes.return i j < 256) };
}

/// The common pool's lanes and the receiver pool's, which the contracts of `make`, `draw`, `hand_back` and `take_back`
/// speak of, are those that `specs/Pools.antt` states. This function is a theorem: it does nothing, and its contract is
/// what is proved.
pub fn both_pools_have_the_stated_lanes()
    ensures common { ⟦<CommonPool as Pool>⟧.lanes ≡ common_lanes }
    ensures receiver { ⟦<ReceiverPool as Pool>⟧.lanes ≡ receiver_lanes }
{}
