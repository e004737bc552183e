//! The common pool: one lane, lane 0, of all buffers.

ghost use Rattle.std.proofs.Common.{refl, arith, rules};

use crate::laned::{LanedPool, Layout};

pub type CommonPool = LanedPool<Common, 1>;

/// Every pair's lane is lane 0, and every buffer lies there at first.
#[derive(Drop)]
pub struct Common;

const LANE: u8 = 0;

impl Layout<1> for Common {
    ghost draw_lane = { λ i j. 0 };

    ghost return_lane = { λ i j. 0 };

    ghost first_lane = { λ b. 0 };

    ghost stocked = { λ i j h. (0, omega arith, refl) };

    ghost low = { Prim.search rules };

    fn draw_lane(_side: u8, _worker: u8) -> u8 {
        LANE
    }

    fn return_lane(_side: u8, _worker: u8) -> u8 {
        LANE
    }

    fn first_lane(_buffer: u8) -> u8 {
        LANE
    }
}
