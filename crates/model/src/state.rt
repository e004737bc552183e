//! The state of a process.

/// The state of a process: four words.
#[derive(Clone, Copy, PartialEq, Eq, Debug)]
pub struct State {
    pub w0: u64,
    pub w1: u64,
    pub w2: u64,
    pub w3: u64,
}

impl State {
    /// Four zero words.
    // no `Default`, since further constants are made of it
    pub const ZERO: State = State {
        w0: 0,
        w1: 0,
        w2: 0,
        w3: 0,
    };
}
