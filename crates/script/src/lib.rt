//! Scripts: what their bytes mean, a reader and a writer, and running them.

#![tactic(auto)]

mod field;
pub mod heading;
pub mod input;
pub mod item;
mod line;
pub mod play;
pub mod read;
pub mod write;
