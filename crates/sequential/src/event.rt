//! Events and their keys, what applying one gives, and the line that is written of it.

ghost use Rattle.std.specs.Prelude.{◌≡◌, ◌+◌, ◌^◌, ◌<◌};
ghost use Rattle.model.specs.Meaning.{many};
ghost use Rattle.sequential.specs.Events.{code_of, earlier as key_earlier, layer_of, line_of, process_after};
ghost use Rattle.sequential.specs.Posts.{posted_event};

use model::reaction::Few;
use model::state::State;

/// A message, by its key (time, process, sender, number) and its payload.
#[derive(Clone, Copy, PartialEq, Eq, Debug)]
pub struct Event {
    pub time: u64,
    pub process: u8,
    pub sender: u8,
    pub number: u64,
    pub payload: u64,
}

impl Event {
    /// The sender of what is posted from outside.
    // a number and no `Option`: it is compared in a key and printed in a line as it is
    pub const OUTSIDE: u8 = 255;

    /// What stands where there is no event: zeros.
    // no `Default`, since further constants are made of it
    pub const NONE: Event = Event {
        time: 0,
        process: 0,
        sender: 0,
        number: 0,
        payload: 0,
    };
}

impl Event {
    // What events are ordered by.
    fn key(&self) -> (u64, u8, u8, u64)
        ensures { result ≡ (self.now.time, self.now.process, self.now.sender, self.now.number) }
    {
        (self.time, self.process, self.sender, self.number)
    }

    /// Whether this event's key comes first: by time, then process, then sender, then number.
    // No `Ord`: that goes by the payload too, as equality does, and a key leaves it out.
    pub fn earlier(&self, other: &Event) -> bool
        ensures { result ≡ key_earlier self.now other.now }
    {
        // the time by itself first: mostly it decides, and a pass over many messages takes half as long for it
        self.time < other.time || (self.time == other.time && self.key() < other.key())
    }
}

/// How applying an event ended.
// No `Result`: a line keeps and prints it, `Fine` too.
#[derive(Clone, Copy, PartialEq, Eq, Debug)]
pub enum Verdict {
    // no fault
    Fine,
    // the model's own fault, by its code
    ModelFault(u8),
    // a wanted send names a receiver that is no process
    NoReceiver,
    // a wanted send has a delay of 0 or above 2^40
    BadDelay,
    // the sender's count would pass the cap
    OverCap,
}

impl Verdict {
    /// The layer of a fault: 0, none; 1, the model's; 2, the executive's.
    pub fn layer(&self) -> u8
        ensures { result ≡ layer_of self.now }
    {
        match self {
            Verdict::Fine => 0,
            Verdict::ModelFault(_) => 1,
            _ => 2,
        }
    }

    /// Its code in that layer.
    // No discriminant gives it: one code is carried, and two numbers go with each verdict.
    pub fn code(&self) -> u8
        ensures { result ≡ code_of self.now }
    {
        match self {
            Verdict::Fine => 0,
            Verdict::ModelFault(c) => *c,
            Verdict::NoReceiver => 1,
            Verdict::BadDelay => 2,
            Verdict::OverCap => 3,
        }
    }
}

/// A committed line: the event, how it ended, and the words of its process after it.
#[derive(Clone, Copy, PartialEq, Eq, Debug)]
pub struct Line {
    pub event: Event,
    pub verdict: Verdict,
    pub state: State,
}

impl Line {
    /// What a place for a line holds before one is written there.
    pub const EMPTY: Line = Line {
        event: Event::NONE,
        verdict: Verdict::Fine,
        state: State::ZERO,
    };
}

/// A process as it stands: its state, and how many messages it has sent.
#[derive(Clone, Copy, PartialEq, Eq, Debug)]
pub struct Process {
    pub state: State,
    pub count: u64,
}

impl Process {
    /// A process of zero words that has sent nothing.
    pub const NOBODY: Process = Process {
        state: State::ZERO,
        count: 0,
    };

    /// The process after an event that came to this outcome.
    pub fn after(&self, outcome: &Outcome) -> Process
        requires { self.now.count + many outcome.now.sends < 2 ^ 64 }
        ensures { result ≡ process_after outcome.now self.now }
    {
        Process {
            state: outcome.state,
            count: self.count + outcome.sends.len(),
        }
    }
}

/// What applying an event does: how it ended, the state after it, and the messages sent.
#[derive(Clone, Copy, PartialEq, Eq, Debug)]
pub struct Outcome {
    pub verdict: Verdict,
    pub state: State,
    pub sends: Few<Event>,
}

impl Outcome {
    /// The line of an event that came to this outcome.
    pub fn line(&self, event: Event) -> Line
        ensures { result ≡ line_of event self.now }
    {
        Line {
            event,
            verdict: self.verdict,
            state: self.state,
        }
    }
}

/// What is posted from outside: a payload for a process at a time.
#[derive(Clone, Copy, PartialEq, Eq, Debug)]
pub struct Post {
    pub process: u64,
    pub time: u64,
    pub payload: u64,
}

impl Post {
    pub const fn new(process: u64, time: u64, payload: u64) -> Post
        ensures { result ≡ record { process = process; time = time; payload = payload } }
    {
        Post {
            process,
            time,
            payload,
        }
    }

    /// The event that is posted, with its number.
    pub fn event(&self, number: u64) -> Event
        requires { self.now.process < 256 }
        ensures { result ≡ posted_event number self.now }
    {
        Event {
            time: self.time,
            process: self.process as u8,
            sender: Event::OUTSIDE,
            number,
            payload: self.payload,
        }
    }
}
