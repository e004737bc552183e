//! The 256 records, and the passes over them that go by a choice.

ghost use Rattle.std.specs.Prelude.{◌≡◌, ◌≢◌, ℕ, ◌+◌, ◌*◌, ◌<◌, Bool, false, length, replicate, slice_index_or};
ghost use Rattle.std.specs.Prelude.{slice_set, None};
ghost use Rattle.sequential.specs.declared.event.Event.{Event as Ev};
ghost use Rattle.machine.specs.declared.message.Phase.{Phase as Ph};
ghost use Rattle.machine.specs.Machine.{blank, chosen, no_event, counted, later, least_time, marked};
ghost use Rattle.choice.specs.Turn.{bettered, passes};

use crate::kinds::Latest;
use machine::message::{Message, Phase};
use model::limits::PROCESSES;
use pool::BUFFERS;
use sequential::event::Event;
use std::marker::Model;

/// Which messages may be chosen, and which of two comes first.
pub trait Choice {
    // the test of a message's phase and event
    ghost ok: { Self → Ph → Ev → Bool };

    // the first of two events comes first
    ghost before: { Self → Ev → Ev → Bool };

    // the phase of what may be chosen
    ghost phased: { Self → Ph };

    fn phase(&self) -> Phase
        ensures { result ≡ phased self.now };

    // the phase and the event alone: a choice looks at nothing else of a message
    fn fits(&self, phase: Phase, event: &Event) -> bool
        requires { event.now.process < 32 }
        ensures { result ≡ ok self.now phase event.now };

    // tried as a default body, by key: the proof of one can't see which `before` a choice takes
    fn precedes(&self, a: &Event, b: &Event) -> bool
        ensures { result ≡ before self.now a.now b.now };

    // no message of another phase may be chosen
    ghost only: { (c : Self) (p : Ph) (e : Ev) → (p ≢ phased c) → ok c p e ≡ false };
}

/// What each of the 256 buffers holds.
#[derive(Clone, Drop)]
pub struct Records {
    records: [Message; BUFFERS],
    // the phases once more: the passes go over blocks of these. By `bench/run`, a search over the records alone makes
    // the switch load 1.8 times and the Phold load 1.5 times as long
    phases: [Phase; BUFFERS],
    // of each process, a time that no done event of it is later than: most messages that arrive find by it, without a
    // pass, that there is nothing to undo
    done_until: [u64; PROCESSES],
}

// Clauses see the messages, by buffer; each is for one of the 32 processes, and its phase stands beside it.
impl Model for Records {
    ghost use Rattle.std.specs.Prelude.{◌≡◌, List, length};
    ghost use Rattle.machine.specs.declared.message.Message.{Message as Held};
    ghost use Rattle.choice.specs.Turn.{Mirrored, HasLowProcesses, Until};

    ghost Value = { List Held };

    ghost view = { λ r. r.records };

    ghost invariant = { λ r. (length r.records ≡ 256) × HasLowProcesses r.records × Mirrored r.phases r.records
        × Until r.done_until r.records };
}

impl Records {
    /// Each buffer is free.
    pub fn new() -> Records
        ensures { result ≡ replicate 256 blank }
    {
        Records {
            records: [Message::EMPTY; BUFFERS],
            phases: [Phase::Free; BUFFERS],
            done_until: [0; PROCESSES],
        }
    }

    pub fn at(&self, buffer: u8) -> &Message
        ensures message { result.now ≡ slice_index_or self.now buffer blank }
        ensures placed { result.now.event.process < 32 }
    {
        &self.records[buffer as usize]
    }

    pub fn as_slice(&self) -> &[Message]
        ensures { result.now ≡ self.now }
    {
        self.records.as_slice()
    }

    // A premise and no type: an event may name any process, and only what is put here must name one of the 32.
    /// The buffer holds the message.
    pub fn put(&mut self, buffer: u8, message: &Message)
        requires { message.now.event.process < 32 }
        ensures { self.new ≡ slice_set self.old buffer message.now }
    {
        let process = message.event.process as usize;
        if message.phase == Phase::Done {
            self.done_until[process] = self.done_until[process].max(message.event.time);
        }
        self.records[buffer as usize] = *message;
        self.phases[buffer as usize] = message.phase;
    }

    /// The message in the buffer is cancelled.
    pub fn mark(&mut self, buffer: u8)
        ensures { self.new ≡ slice_set self.old buffer (marked (slice_index_or self.old buffer blank)) }
    {
        self.records[buffer as usize].cancelled = true;
    }

    // One of the sixteen messages in a block is in the phase.
    fn holds(&self, block: usize, phase: Phase) -> bool
        requires { block < 16 }
        ensures all { length self.now ≡ 256 }
        ensures none { result ≡ false → (k : ℕ) → k < 16 →
            (slice_index_or self.now (16 * block + k) blank).phase ≢ phase }
    {
        let phases = &self.phases;
        let mut holds = false;
        // by index, and all sixteen without a branch: it becomes one vector comparison
        for k in 0..16usize {
            holds |= phases[16 * block + k] == phase;
        }
        holds
    }

    // One turn: the better of the best so far and the message in the buffer.
    fn better<C: Choice>(&self, choice: &C, buffer: u8, best: Option<u8>) -> Option<u8>
        ensures { result ≡ bettered (passes (C.ok choice.now)) (C.before choice.now) self.now buffer best }
    {
        let message = self.at(buffer);
        if !choice.fits(self.phases[buffer as usize], &message.event) {
            return best;
        }
        match best {
            None => Some(buffer),
            Some(b) => {
                if choice.precedes(&message.event, &self.at(b).event) {
                    Some(buffer)
                } else {
                    Some(b)
                }
            }
        }
    }

    /// The buffer of the message that is chosen first.
    pub fn foremost<C: Choice>(&self, choice: &C) -> Option<u8>
        ensures { result ≡ chosen (passes (C.ok choice.now)) (C.before choice.now) self.now 0 None no_event }
    {
        // a field is read, so that the proof has what clauses see of `self`
        let _ = &self.records;
        let phase = choice.phase();
        let mut best = None;
        // by blocks, for which the phases stand once more; a buffer is a number here, which `better` takes
        for block in 0..16usize {
            if self.holds(block, phase) {
                for b in 16 * block..16 * block + 16 {
                    best = self.better(choice, b as u8, best);
                }
            }
        }
        best
    }

    /// The buffer of the latest done event of a process past the mark.
    pub fn latest(&self, choice: &Latest) -> Option<u8>
        ensures { result ≡ chosen (passes (⟦<Latest as Choice>⟧.ok choice.now)) later self.now 0 None no_event }
    {
        let process = choice.process as usize;
        if process < PROCESSES && self.done_until[process] < choice.mark.time {
            return None;
        }
        self.foremost(choice)
    }

    /// How many messages may be chosen.
    pub fn count<C: Choice>(&self, choice: &C) -> u16
        ensures { result ≡ counted (passes (C.ok choice.now)) self.now }
    {
        let records = &self.records;
        let phase = choice.phase();
        let mut n = 0u16;
        // by blocks, as `foremost` goes
        for block in 0..16usize {
            if self.holds(block, phase) {
                for b in 16 * block..16 * block + 16 {
                    if choice.fits(self.phases[b], &records[b].event) {
                        n += 1;
                    }
                }
            }
        }
        n
    }

    /// The least of t and the times of the messages that may be chosen.
    pub fn least_time<C: Choice>(&self, choice: &C, t: u64) -> u64
        ensures { result ≡ least_time (passes (C.ok choice.now)) self.now t }
    {
        let records = &self.records;
        let phase = choice.phase();
        let mut least = t;
        // by index, and by blocks, as `foremost` goes
        for block in 0..16usize {
            if self.holds(block, phase) {
                for b in 16 * block..16 * block + 16 {
                    if choice.fits(self.phases[b], &records[b].event) {
                        least = least.min(records[b].event.time);
                    }
                }
            }
        }
        least
    }
}
