ghost use Rattle.std.specs.Prelude.{◌≡◌, ◌+◌, ◌≤◌};
ghost use Rattle.figures.specs.Demand.{ceil, charge, work_in};

use terms::Terms;

// Which copy of a job: its primary, or its standby.
#[derive(Clone, Copy, PartialEq, Eq, Debug)]
pub enum Role {
    Primary,
    Standby,
}

// A copy of a job in a set, with the lateness that it has there.
#[derive(Clone, Copy, PartialEq, Eq, Debug)]
pub struct JobCopy {
    pub terms: Terms,
    pub role: Role,
    pub lateness: u32,
}

impl JobCopy {
    // What one release is charged: the copy's run.
    pub(crate) fn charge(&self) -> u32
        ensures value { result ≡ charge self.now }
        ensures bounds { (1 ≤ result) × (result ≤ 1000000) }
    {
        match self.role {
            Role::Primary => self.terms.run(),
            Role::Standby => self.terms.standby(),
        }
    }

    // How many releases can fall into a window of x ticks.
    fn releases(&self, x: u64) -> u64
        requires { x ≤ 1000000 }
        ensures { result ≡ ceil (x + self.now.lateness) self.now.terms.period }
    {
        let period = u64::from(self.terms.period());
        // by hand: `div_ceil` proves here, but this is the innermost work, and it made `figure` some 5 % slower
        (x + u64::from(self.lateness) + (period - 1)) / period
    }

    // The most work of the copy that can fall into a window of x ticks.
    pub(crate) fn work_in(&self, x: u64) -> u64
        requires { x ≤ 1000000 }
        ensures value { result ≡ work_in self.now x }
        ensures small { result ≤ 5000000000000000 }
    {
        u64::from(self.charge()) * self.releases(x)
    }
}
