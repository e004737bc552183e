//! A worker, of which the machine's definitions speak too.

use crate::Inbox;

/// One worker: its inbox, its floor, and what it has reported in the open round.
#[derive(Clone, Copy)]
pub struct Worker {
    pub inbox: Inbox,
    pub floor: u64,
    pub report: Option<u64>,
}
