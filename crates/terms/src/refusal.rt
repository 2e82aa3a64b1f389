ghost use Rattle.std.specs.Prelude.{◌≡◌, ◌++◌, Some, codes, decimal};
ghost use Rattle.terms.specs.Refusals.{number_of};

use std::error::Error;
use std::fmt;

// Why a call says no. A refusal answers its number alone and changes nothing.
#[derive(Clone, Copy, PartialEq, Eq, Debug)]
pub enum Refusal {
    // the machine count is not 2 to 16
    MachineCount = 1,
    // a limit on a job's terms is broken
    Limits = 2,
    // the job's number is planned already
    Known = 3,
    // 96 jobs are planned
    Full = 4,
    // no choice of two machines and a status passes
    NoPlace = 5,
    // no such job
    Unknown = 6,
    // a pinned placement that is none, or whose plan fails
    Pin = 7,
    // no plan file under this rule
    NotAPlan = 8,
    // a plan file whose plan fails
    PlanFails = 9,
    // the output is too short
    Short = 10,
    // a rehearsal too long, or of a machine that is not there
    Rehearsal = 11,
    // no such console line
    Line = 12,
}

impl Refusal {
    pub fn number(&self) -> u8
        ensures { result ≡ number_of self.now }
    {
        *self as u8
    }
}

impl fmt::Display for Refusal {
    ghost output = { λ refusal. Some (codes "refused with " ++ decimal (number_of refusal)) };

    fn fmt<W: fmt::Write>(&self, f: &mut fmt::Formatter<W>) -> fmt::Result {
        let number = self.number();
        write!(f, "refused with {number}")
    }
}

impl Error for Refusal {}
