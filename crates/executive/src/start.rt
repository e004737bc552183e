//! Setting up a run, and starting it.

ghost use Rattle.std.specs.Prelude.{◌≤◌, replicate};
ghost use Rattle.executive.specs.Running.{IsSetTo, Places, Sets, Starts};
ghost use Rattle.executive.specs.World.{PlanHolds};

use crate::{Executive, Setup};
use machine::plan::Plan;
use machine::refusal::Refusal;
use model::Model;
use model::limits::PROCESSES;
use pool::{Pool, WORKERS};
use sequential::limits::Limits;
use sequential::run::fresh_processes;
use tables::Tables;

const FIRST_END: u64 = 1000;

const FIRST_CAP: u64 = 1000;

// A plan with every process on worker 0.
fn all_on_first(limits: Limits, workers: u8) -> Plan
    requires { (1 ≤ workers) × (workers ≤ 8) }
    ensures { PlanHolds result limits.end limits.most workers (replicate 32 0) }
{
    Plan {
        limits,
        workers,
        home: [0; PROCESSES],
    }
}

impl<M: Model, P: Pool> Setup<M, P> {
    /// A setup of the model: end 1,000, cap 1,000, one worker, and every process on worker 0.
    pub fn fresh(model: M) -> Setup<M, P>
        ensures { IsSetTo result model 1000 1000 1 }
    {
        let limits = Limits {
            end: FIRST_END,
            most: FIRST_CAP,
        };
        let plan = all_on_first(limits, 1);
        Setup {
            model,
            plan,
            pool: P::make(),
        }
    }

    /// Replaces end (1 to 2^40), cap (1 to 2^32 - 1) and workers (1 to 8), and puts every process on worker 0 again.
    pub fn set(&mut self, end: u64, most: u64, workers: u64) -> Result<(), Refusal>
        ensures { Sets self.old end most workers result self.new }
    {
        let limits = Limits::new(end, most)?;
        if workers < 1 || workers > WORKERS as u64 {
            return Err(Refusal::OutsideLimits);
        }
        self.plan = all_on_first(limits, workers as u8);
        Ok(())
    }

    /// Moves a process to a worker.
    pub fn place(&mut self, process: u64, worker: u64) -> Result<(), Refusal>
        ensures { Places self.old process worker result self.new }
    {
        if process >= self.model.size() as u64 {
            return Err(Refusal::NoProcess);
        }
        // by the number itself, as of a process: a plan's homes are numbers
        if worker >= self.plan.workers as u64 {
            return Err(Refusal::NoWorker);
        }
        self.plan.home[process as usize] = worker as u8;
        Ok(())
    }

    /// Turns the setup into the running executive, over a new pool.
    pub fn start(self) -> Executive<M, P>
        ensures { Starts self result }
    {
        let Setup { model, plan, pool } = self;
        let processes = fresh_processes(&model);
        let tables = Tables::start(&plan, processes);
        Executive {
            model,
            pool,
            plan,
            tables,
        }
    }
}
