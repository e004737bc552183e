//! The six calls, and what each answers.

use crate::refusal::Refusal;

/// The six calls, with the numbers that they are made with.
// By position, as in a script's line: `Post(0, 10, 1)` is `post 0 10 1`. With names each post in a list of calls is
// five lines long, and so is each arm that takes one: no plainer.
#[derive(Clone, Copy, PartialEq, Eq, Debug)]
pub enum Call {
    // process, time, payload
    Post(u64, u64, u64),
    // worker
    Absorb(u64),
    // worker
    Step(u64),
    Round,
    // worker
    Report(u64),
    // the length of the caller's list
    Collect(u64),
}

/// What a call answers; L holds the lines of a collection.
// The refusal is one of seven variants. As `Result<Reply<L>, Refusal>` it would be no plainer: nothing passes an answer
// on by `?`, a definition over answers has the same seven cases, and a `Result` cannot have a `Display` of its own.
#[derive(Clone, Copy, PartialEq, Eq, Debug)]
pub enum Answer<L> {
    Refused(Refusal),
    // the post's number
    Posted(u64),
    // annihilations, events rolled back, messages cancelled
    Absorbed(u64, u64, u64),
    // time, process, sends
    Stepped(u64, u8, u64),
    // workers
    Opened(u8),
    // reports missing, and GVT
    Told(u8, u64),
    // the lines written, and how many remain
    Collected(L, u64),
}
