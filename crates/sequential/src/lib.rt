//! Events and their keys, what applying one does, and the sequential run.

#![tactic(auto)]

pub mod apply;
pub mod event;
pub mod limits;
pub mod run;
pub mod text;
