//! Tests of the executive: setting up, every refusal, buffers, collecting, and runs beside the sequential run.

#![tactic(auto)]

#[cfg(test)]
mod buffers;
#[cfg(test)]
mod collecting;
#[cfg(test)]
mod fixture;
#[cfg(test)]
mod following;
#[cfg(test)]
mod groups;
#[cfg(test)]
mod refusals;
#[cfg(test)]
mod setting;
