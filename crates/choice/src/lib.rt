//! The records of messages, and choosing among them: the least, the latest, the oldest, how many, and the least time.

#![tactic(auto)]

pub mod kinds;
pub mod records;
