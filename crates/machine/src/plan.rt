//! What a run is set up with besides its model and its pool.

ghost use Rattle.std.specs.Prelude.{ℕ, ◌<◌, ◌≤◌, slice_index};

use model::limits::PROCESSES;
use sequential::limits::Limits;

/// What a run is set up with besides its model and its pool: the limits, the number of workers, and the worker of
/// each process.
#[derive(Clone, Copy)]
pub struct Plan {
    pub limits: Limits,
    pub workers: u8,
    pub home: [u8; PROCESSES],
    ghost staffed: { (1 ≤ workers) × (workers ≤ 8) },
    ghost housed: { (p : ℕ) → p < 32 → slice_index home p < workers },
}
