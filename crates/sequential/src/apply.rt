//! Applying an event to its process.

ghost use Rattle.std.specs.Prelude.{◌≡◌, ◌+◌, ◌^◌, ◌<◌, ◌≤◌, true, [], MatchResult, ◌∷◌, nat_lt};
ghost use Rattle.model.specs.Meaning.{listed, many};
ghost use Rattle.sequential.specs.Events.{applied, faulted, flaw as first_flaw, is_fine, message_of, messages_of};
ghost use Rattle.sequential.specs.Events.{passed, reacted as reacted_to};

use crate::event::{Event, Outcome, Process, Verdict};
use crate::limits::Limits;
use model::Model;
use model::limits::LATEST;
use model::reaction::{Few, Reaction, Want};
use model::state::State;

// Refuses a wanted send that is wrong: its receiver is looked at before its delay.
fn check_want(size: u8, want: &Want) -> Result<(), Verdict>
    ensures { result ≡ passed (first_flaw size (want.now ∷ [])) }
{
    if want.receiver >= size as u64 {
        return Err(Verdict::NoReceiver);
    }
    if want.delay == 0 || want.delay > LATEST {
        return Err(Verdict::BadDelay);
    }
    Ok(())
}

// Refuses the first thing wrong with the wanted sends, in their order.
// By cases: a loop over two would owe an invariant, and no case owes anything.
fn check_wants(size: u8, wants: &Few<Want>) -> Result<(), Verdict>
    ensures { result ≡ passed (first_flaw size (listed wants.now)) }
{
    match wants {
        Few::Nothing => Ok(()),
        Few::One(want) => check_want(size, want),
        Few::Two(first, second) => {
            check_want(size, first)?;
            check_want(size, second)
        }
    }
}

// Whether a wanted send of the event comes before the end.
fn is_due(end: u64, event: &Event, want: &Want) -> bool
    ensures { result ≡ nat_lt (event.now.time + want.now.delay) end }
{
    event.time < end && want.delay < end - event.time
}

// The message that the event sends for a want that is due.
fn message(event: &Event, number: u64, want: &Want) -> Event
    requires fits { event.now.time + want.now.delay < 2 ^ 64 }
    requires aimed { want.now.receiver < 256 }
    ensures { result ≡ message_of event.now number want.now }
{
    Event {
        time: event.time + want.delay,
        process: want.receiver as u8,
        sender: event.process,
        number,
        payload: want.payload,
    }
}

// The messages of the event, numbered from `first` on; those due at or past the end are struck out.
// By cases: whether the first is struck out decides the second's number.
fn messages(size: u8, limits: &Limits, event: &Event, first: u64, wants: &Few<Want>) -> Few<Event>
    requires fine { is_fine (first_flaw size (listed wants.now)) ≡ true }
    requires counted { first ≤ limits.now.most }
    ensures { result ≡ messages_of limits.now.end event.now first (listed wants.now) }
{
    match wants {
        Few::Nothing => Few::Nothing,
        Few::One(want) => match is_due(limits.end, event, want) {
            true => Few::One(message(event, first, want)),
            false => Few::Nothing,
        },
        Few::Two(one, two) => match (
            is_due(limits.end, event, one),
            is_due(limits.end, event, two),
        ) {
            (true, true) => Few::Two(message(event, first, one), message(event, first + 1, two)),
            (true, false) => Few::One(message(event, first, one)),
            (false, true) => Few::One(message(event, first, two)),
            (false, false) => Few::Nothing,
        },
    }
}

// A faulted event leaves the state and sends nothing.
fn fault(verdict: Verdict, state: State) -> Outcome
    ensures { result ≡ faulted verdict state }
{
    Outcome {
        verdict,
        state,
        sends: Few::Nothing,
    }
}

// The executive's own checks of a reaction, in order: the wants, then the cap.
fn checked(
    size: u8,
    limits: &Limits,
    event: &Event,
    process: &Process,
    reaction: Reaction,
) -> Result<Outcome, Verdict>
    ensures value { MatchResult result
        (λ o. o ≡ reacted_to size limits.now event.now process.now reaction)
        (λ v. faulted v process.now.state ≡ reacted_to size limits.now event.now process.now reaction) }
    ensures room { MatchResult result
        (λ o. process.now.count + many o.sends < 2 ^ 64) (λ _. process.now.count < 2 ^ 64) }
{
    let count = process.count;
    let (state, wants) = match reaction {
        Reaction::Fault(code) => return Err(Verdict::ModelFault(code)),
        Reaction::Next(state, wants) => (state, wants),
    };
    check_wants(size, &wants)?;
    if count > limits.most {
        return Err(Verdict::OverCap);
    }
    let sends = messages(size, limits, event, count, &wants);
    if count + sends.len() > limits.most {
        return Err(Verdict::OverCap);
    }
    Ok(Outcome {
        verdict: Verdict::Fine,
        state,
        sends,
    })
}

/// Applies the event to its process as it stands. The model's reaction is asked for once, here and nowhere else.
#[tactic(auto, unfolding(crate::specs::Events::applied))]
pub fn apply<M: Model>(model: &M, limits: &Limits, event: &Event, process: &Process) -> Outcome
    ensures value { result ≡ applied (M.meaning model.now) limits.now event.now process.now }
    ensures room { process.now.count + many result.sends < 2 ^ 64 }
{
    let reaction = model.react(
        event.process as u64,
        &process.state,
        event.time,
        event.payload,
    );
    checked(model.size(), limits, event, process, reaction).unwrap_or_else(|verdict| fault(
        verdict,
        process.state,
    ))
}
