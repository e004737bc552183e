//! Drawing the buffers that the messages of a step need, all of them or none, and returning a buffer.

ghost use Rattle.std.specs.Prelude.{◌≡◌, ◌<◌, slice_set};
ghost use Rattle.executive.specs.Draws.{DrawsFor};
ghost use Rattle.machine.specs.Machine.{returned};
ghost use Rattle.pool.specs.Lanes.{place_at};
ghost use Rattle.pool.specs.declared.place.Place.TheVariants.{Out};

use machine::plan::Plan;
use model::reaction::Few;
use pool::Pool;
use sequential::event::Event;
use tables::homes::{WorkerId, home_of, side_of};

// One grant for each message, in order; where a later one is refused, the first is handed back unsent.
pub(crate) fn draw_for<P: Pool>(
    pool: &mut P,
    plan: &Plan,
    worker: WorkerId,
    sends: &Few<Event>,
) -> Option<Few<u8>>
    ensures { DrawsFor P.lanes plan.now worker.index sends.now (P.places pool.old) (P.places pool.new) result }
{
    // by cases: they show where a grant is owed, which a pass over the messages would carry from turn to turn
    match sends {
        Few::Nothing => Some(Few::Nothing),
        Few::One(only) => {
            let grant = pool.draw(worker.index, home_of(plan, only.process).index)?;
            Some(Few::One(grant.send()))
        }
        Few::Two(first, second) => {
            let first_home = home_of(plan, first.process).index;
            let one = pool.draw(worker.index, first_home)?;
            match pool.draw(worker.index, home_of(plan, second.process).index) {
                Some(two) => Some(Few::Two(one.send(), two.send())),
                None => {
                    pool.hand_back(one, worker.index, first_home);
                    None
                }
            }
        }
    }
}

// Returns a buffer to the pool, into the lane of the side and the worker that its message went between.
pub(crate) fn give_back<P: Pool>(pool: &mut P, plan: &Plan, event: &Event, b: u8)
    ensures { place_at (P.places pool.old) b ≡ Out
        → P.places pool.new ≡ slice_set (P.places pool.old) b (returned P.lanes plan.now event.now) }
{
    pool.take_back(b, side_of(plan, event), home_of(plan, event.process).index);
}
