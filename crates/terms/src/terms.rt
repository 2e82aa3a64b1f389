ghost use Rattle.std.specs.Prelude.{◌≡◌, ◌+◌, ◌≤◌};

// A job's terms: its number and five tick counts. The limits hold of every value of this type.
#[derive(Clone, Copy, PartialEq, Eq, Debug)]
pub struct Terms {
    // 1 to 65,535
    pub(crate) number: u32,
    // ticks from one invocation to the next
    pub(crate) period: u32,
    // ticks from an invocation until it is due
    pub(crate) deadline: u32,
    // the longest run of the primary copy
    pub(crate) run: u32,
    // the longest run of the standby copy
    pub(crate) standby: u32,
    // how late a release can come after its invocation
    pub(crate) lateness: u32,
    ghost numbered: { (1 ≤ number) × (number ≤ 65535) },
    ghost working: { (1 ≤ run) × (1 ≤ standby) },
    ghost fitting: { (lateness + run ≤ deadline) × (lateness + standby ≤ deadline) },
    ghost bounded: { (deadline ≤ period) × (period ≤ 1000000) },
}

impl Terms {
    pub fn number(&self) -> u32
        ensures { result ≡ self.now.number }
    {
        self.number
    }

    pub fn period(&self) -> u32
        ensures { result ≡ self.now.period }
    {
        self.period
    }

    pub fn deadline(&self) -> u32
        ensures { result ≡ self.now.deadline }
    {
        self.deadline
    }

    pub fn run(&self) -> u32
        ensures { result ≡ self.now.run }
    {
        self.run
    }

    pub fn standby(&self) -> u32
        ensures { result ≡ self.now.standby }
    {
        self.standby
    }

    pub fn lateness(&self) -> u32
        ensures { result ≡ self.now.lateness }
    {
        self.lateness
    }
}
