//! Tests of the models, of applying an event, of the sequential run, and of writing figures.

#![tactic(auto)]

#[cfg(test)]
mod applying;
#[cfg(test)]
mod fixed;
#[cfg(test)]
mod models;
#[cfg(test)]
mod running;
#[cfg(test)]
mod writing;
