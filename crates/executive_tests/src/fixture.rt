//! Small switches to test on.

use executive::{Executive, Setup};
use machine::refusal::Refusal;
use model::switch::Switch;
use pool::Pool;
use std::test::Fail;

// A setup of two ports with a service time of 3, as it comes.
pub fn fresh<P: Pool>() -> Result<Setup<Switch, P>, Fail> {
    Ok(Setup::fresh(Switch::new(2, 3)?))
}

// Two ports with a service time of 3 on two workers, port p on worker p; the run ends at 100.
pub fn two_ports<P: Pool + Drop>(most: u64) -> Result<Executive<Switch, P>, Fail> {
    let mut setup = fresh()?;
    setup.set(100, most, 2)?;
    setup.place(1, 1)?;
    Ok(setup.start())
}

// A whole round of both workers: GVT.
pub fn whole_round<P: Pool>(executive: &mut Executive<Switch, P>) -> Result<u64, Refusal> {
    executive.round()?;
    executive.report(0)?;
    let (_, gvt) = executive.report(1)?;
    Ok(gvt)
}
