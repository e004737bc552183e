//! What one buffer holds.

use model::reaction::Few;
use model::state::State;
use sequential::event::{Event, Outcome, Process, Verdict};

/// What becomes of a message: its buffer is free, or it is in transit, pending or done.
#[derive(Clone, Copy, PartialEq, Eq, Debug)]
pub enum Phase {
    Free,
    Transit,
    Pending,
    Done,
}

/// What one buffer holds. Of a done event: its process as it was before it, what it did, and the buffers of its
/// messages.
// Those three stand beside the phase, and not in a variant `Done`: calls, and the definitions, read each by its field.
// `cancelled` is a flag by itself: a message in transit, pending or done can be cancelled.
#[derive(Clone, Copy)]
pub struct Message {
    pub phase: Phase,
    pub cancelled: bool,
    pub event: Event,
    pub snapshot: Process,
    pub outcome: Outcome,
    pub sent: Few<u8>,
}

impl Message {
    /// What a free buffer holds.
    pub const EMPTY: Message = Message {
        phase: Phase::Free,
        cancelled: false,
        event: Event::NONE,
        snapshot: Process::NOBODY,
        outcome: Outcome {
            verdict: Verdict::Fine,
            state: State::ZERO,
            sends: Few::Nothing,
        },
        sent: Few::Nothing,
    };
}
