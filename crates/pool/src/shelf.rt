//! The buffers of N lanes: where each is, and a stack of the buffers of each lane.

ghost use Rattle.std.specs.Prelude.{◌≡◌, ℕ, ◌<◌, length, replicate, if◌then◌else◌, slice_set};
ghost use Rattle.pool.specs.declared.place.Place.TheVariants.{Out as Away, Lane as LaneOf};
ghost use Rattle.pool.specs.Lanes.{place_at, is_out, lies};
ghost use Rattle.pool.specs.Stacks.{Tally, Once, Taken, dealt_by};

use crate::BUFFERS;
use crate::laned::Layout;
use crate::place::Place;
use crate::stack::{Stack, empty_stacks};

#[derive(Drop)]
pub struct Shelf<const N: usize> {
    places: [Place; BUFFERS],
    stacks: [Stack; N],
    ghost whole: { length places ≡ 256 },
    ghost tally: { Tally places stacks },
    ghost once: { Once places stacks },
}

impl<const N: usize> Shelf<N> {
    fn bare() -> Shelf<N>
        ensures { result.places ≡ replicate 256 Away }
    {
        Shelf {
            places: [Place::Out; BUFFERS],
            stacks: empty_stacks(),
        }
    }

    // All buffers in, each in its first lane.
    pub fn stocked<L: Layout<N>>() -> Shelf<N>
        ensures { result.places ≡ dealt_by L.first_lane }
    {
        let mut shelf = Shelf::bare();
        for b in 0..=255u8 {
            let _ = shelf.put(b, L::first_lane(b));
        }
        shelf
    }

    // Takes the top buffer of a lane's stack out.
    pub fn take(&mut self, lane: u8) -> Option<u8>
        requires { lane < N }
        ensures { Taken lane self.old.places self.new.places result }
    {
        let buffer = self.stacks[lane as usize].pop()?;
        self.places[buffer as usize] = Place::Out;
        Some(buffer)
    }

    // Puts a buffer that is out on top of a lane's stack.
    // yes or no, which is what the pool's calls answer
    pub fn put(&mut self, buffer: u8, lane: u8) -> bool
        requires { lane < N }
        ensures answer { result ≡ is_out (place_at self.old.places buffer) }
        ensures after { self.new.places
            ≡ (if is_out (place_at self.old.places buffer)
            then slice_set self.old.places buffer (LaneOf lane)
            else self.old.places) }
    {
        if !self.places[buffer as usize].is_out() {
            return false;
        }
        self.stacks[lane as usize].push(buffer);
        self.places[buffer as usize] = Place::Lane(lane);
        true
    }

    pub fn count(&self, lane: u64) -> u64
        ensures { result ≡ lies lane self.now.places }
    {
        self.stacks
            .get(lane as usize)
            .map_or(0, |stack| stack.height() as u64)
    }
}
