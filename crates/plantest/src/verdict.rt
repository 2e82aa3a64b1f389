ghost use Rattle.std.specs.Prelude.{◌≡◌};
ghost use Rattle.plantest.specs.Numbers.{verdict_number};

// What the test says of a list of placements: one of three, so neither an Option nor a Result.
#[derive(Clone, Copy, PartialEq, Eq, Debug)]
pub enum Verdict {
    // It is no plan: a wrong machine count, too many jobs, a number twice, or machines that are none.
    NoPlan = 0,
    // Some copy has no figure within its deadline.
    Fails = 1,
    // Every copy has its figures.
    Passing = 2,
}

impl Verdict {
    pub fn number(&self) -> u8
        ensures { result ≡ verdict_number self.now }
    {
        *self as u8
    }
}
