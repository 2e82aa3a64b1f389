use terms::Draft;

// A job as a file has it: its numbers, pair and status are the file's bytes, not yet judged.
#[derive(Clone, Copy, PartialEq, Eq, Debug)]
pub struct JobRecord {
    pub draft: Draft,
    pub pair: u8,
    pub status: u8,
}

// One record of a plan file. A note is that part of the file.
#[derive(Clone, Copy, PartialEq, Eq, Debug)]
pub enum Record<'a> {
    // 1
    Head { code: u8, machines: u8 },
    // 2
    Job(JobRecord),
    // 3
    Note(&'a [u8]),
    // 9
    End,
}
