//! The Time Warp machine: its types, and what every call must do, as definitions.

#![tactic(auto)]

pub mod call;
pub mod cases;
pub mod message;
pub mod plan;
pub mod refusal;
pub mod text;
