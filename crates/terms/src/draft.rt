// The numbers of a job as a caller hands them over, not yet judged.
#[derive(Clone, Copy, PartialEq, Eq, Debug)]
pub struct Draft {
    pub number: u32,
    pub period: u32,
    pub deadline: u32,
    pub run: u32,
    pub standby: u32,
    pub lateness: u32,
}
