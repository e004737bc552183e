//! The receiver pool: a lane of 32 buffers for each receiving worker.

ghost use Rattle.std.specs.Prelude.{◌*◌, ◌/◌, ◌≤◌, nat_le};
ghost use Rattle.std.proofs.Common.{arith, rules};
ghost use Rattle.std.proofs.lemmas.Bool.{and_parts, leb-true};

use crate::WORKERS;
use crate::laned::{LanedPool, Layout};

pub type ReceiverPool = LanedPool<Receiver, WORKERS>;

/// A pair's lane is the receiving worker's. The buffers are dealt in equal shares, lane 0 first.
#[derive(Drop)]
pub struct Receiver;

// the buffers of a lane at first
const SHARE: u8 = 32;

impl Layout<WORKERS> for Receiver {
    ghost draw_lane = { λ i j. j };

    ghost return_lane = { λ i j. j };

    ghost first_lane = { λ b. b / 32 };

    // the first buffer of each share
    ghost stocked = { λ i j h.
        let worker : j ≤ 7 = leb-true j 7 (and_parts (nat_le i 8) (nat_le j 7) h).1 in
        (32 * j, omega arith, omega arith) };

    ghost low = { Prim.search rules };

    fn draw_lane(_side: u8, worker: u8) -> u8 {
        worker
    }

    fn return_lane(_side: u8, worker: u8) -> u8 {
        worker
    }

    fn first_lane(buffer: u8) -> u8 {
        buffer / SHARE
    }
}
