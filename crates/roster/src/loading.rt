ghost use Rattle.std.specs.Prelude.{◌≡◌, ◌*◌, ◌≤◌, length, sum_by};
ghost use Rattle.figures.specs.Demand.{ceil};
ghost use Rattle.roster.specs.Loads.{job_load, load, loads, primary_load, standby_load};

use crate::roster::Roster;
use rack::{Placement, Status};
use std::array;

// A run in every period, in millionths of the machine, rounded up: no more than all of it.
#[tactic(auto, using(crate::proofs::Weights::div_ceil_same))]
fn millionths(run: u32, period: u32) -> u64
    requires { (run ≤ period) × (1 ≤ period) }
    ensures value { result ≡ ceil (1000000 * run) period }
    ensures small { result ≤ 1000000 }
{
    (1000000 * u64::from(run)).div_ceil(u64::from(period))
}

// What the primary adds to the load of a machine.
fn of_primary(p: &Placement, machine: u8) -> u64
    ensures value { result ≡ primary_load machine p.now }
    ensures small { result ≤ 1000000 }
{
    if p.primary == machine {
        millionths(p.terms.run(), p.terms.period())
    } else {
        0
    }
}

// What the standby adds to it: nothing while it is passive.
fn of_standby(p: &Placement, machine: u8) -> u64
    ensures value { result ≡ standby_load machine p.now }
    ensures small { result ≤ 1000000 }
{
    if p.standby == machine && p.status == Status::Active {
        millionths(p.terms.standby(), p.terms.period())
    } else {
        0
    }
}

// What a job adds to it.
fn of_job(p: &Placement, machine: u8) -> u64
    ensures value { result ≡ job_load machine p.now }
    ensures small { result ≤ 2000000 }
{
    of_primary(p, machine) + of_standby(p, machine)
}

// What jobs add to it together.
fn of_jobs(placements: &[Placement], machine: u8) -> u64
    requires { length placements.now ≤ 96 }
    ensures { result ≡ sum_by (job_load machine) placements.now }
{
    placements.iter().map(|p| of_job(p, machine)).sum()
}

impl Roster {
    // The load of a machine.
    #[tactic(auto, using(crate::proofs::Weights::load_sum))]
    fn load(&self, machine: u8) -> u64
        ensures { result ≡ load machine self.now.placements.items }
    {
        of_jobs(self.placements(), machine)
    }

    // How much of each machine is asked for while nothing has stopped, in millionths.
    pub fn loads(&self) -> [u64; 16]
        ensures { result ≡ loads self.now.placements.items }
    {
        array::from_fn(|machine| self.load(machine as u8))
    }
}
