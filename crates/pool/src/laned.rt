//! A pool of lanes. Which lane a pair uses, and where each buffer lies at first, is its layout's to say.

ghost use Rattle.std.specs.Prelude.{◌≡◌, ℕ, ◌<◌, true};
ghost use Rattle.pool.specs.Lanes.{is_pair};
ghost use Rattle.pool.specs.Pools.{lanes_by};
ghost use Rattle.pool.specs.Stocking.{length-dealt_by, lent-dealt_by, stocked_at};

use crate::Pool;
use crate::grant::Grant;
use crate::place::is_pair;
use crate::shelf::Shelf;
use std::marker::PhantomData;

/// How a pool uses its N lanes.
pub trait Layout<const N: usize> {
    // each by the side and the worker of a pair
    ghost draw_lane: { ℕ → ℕ → ℕ };

    ghost return_lane: { ℕ → ℕ → ℕ };

    // by the buffer
    ghost first_lane: { ℕ → ℕ };

    /// The lane that a pair draws from.
    fn draw_lane(side: u8, worker: u8) -> u8
        ensures lane { result ≡ draw_lane side worker }
        ensures low { is_pair side worker ≡ true → result < N };

    /// The lane that a buffer goes back to once the pair has used it.
    fn return_lane(side: u8, worker: u8) -> u8
        ensures lane { result ≡ return_lane side worker }
        ensures low { is_pair side worker ≡ true → result < N };

    /// The lane in which a buffer lies in a new pool.
    fn first_lane(buffer: u8) -> u8
        ensures lane { result ≡ first_lane buffer }
        ensures low { result < N };

    // some buffer lies in each pair's draw lane at first
    ghost stocked: { (i j : ℕ) → is_pair i j ≡ true → (b : ℕ) × (b < 256) × (first_lane b ≡ draw_lane i j) };

    // lanes have numbers below 256
    ghost low: { (i j : ℕ) → is_pair i j ≡ true → (draw_lane i j < 256) × (return_lane i j < 256) };
}

/// The pool of a layout.
#[derive(Drop)]
pub struct LanedPool<L: Layout<N>, const N: usize> {
    shelf: Shelf<N>,
    layout: PhantomData<L>,
}

impl<L: Layout<N>, const N: usize> Pool for LanedPool<L, N> {
    ghost lanes = { lanes_by L.draw_lane L.return_lane L.first_lane };

    ghost places = { λ p. p.shelf.places };

    ghost sized = { λ p. p.shelf.whole };

    ghost fresh = { length-dealt_by L.first_lane };

    ghost unlent = { lent-dealt_by L.first_lane };

    ghost stocked = { λ i j h. let at = L.stocked i j h in stocked_at L.first_lane (L.draw_lane i j) at.0 at.1 at.2 };

    ghost low = { L.low };

    fn make() -> Self {
        LanedPool {
            shelf: Shelf::stocked::<L>(),
            layout: PhantomData,
        }
    }

    fn draw(&mut self, side: u8, worker: u8) -> Option<Grant> {
        if !is_pair(side, worker) {
            return None;
        }
        self.shelf
            .take(L::draw_lane(side, worker))
            .map(|buffer| Grant { buffer })
    }

    fn hand_back(&mut self, grant: Grant, side: u8, worker: u8) -> bool {
        let buffer = grant.send();
        is_pair(side, worker) && self.shelf.put(buffer, L::draw_lane(side, worker))
    }

    fn take_back(&mut self, buffer: u8, side: u8, worker: u8) -> bool {
        is_pair(side, worker) && self.shelf.put(buffer, L::return_lane(side, worker))
    }

    fn count(&self, lane: u64) -> u64 {
        self.shelf.count(lane)
    }
}
