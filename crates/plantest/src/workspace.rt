ghost use Rattle.std.specs.Prelude.{◌≤◌, IfOk, vec_capacity};

use buffer::Buffer;
use figures::JobCopy;
use std::alloc::{AllocError, Global};

// The copies that share a machine: at most two of each of 96 jobs.
pub(crate) type Copies = Buffer<JobCopy, 192>;

// A lateness for each of 96 jobs.
pub(crate) type Lates = Buffer<u32, 96>;

// Memory for one test. It is there from the start, so that a test cannot fail for want of memory. What it
// holds between tests is free.
#[derive(Drop)]
pub struct Workspace {
    pub(crate) copies: Copies,
    pub(crate) lates: Lates,
}

impl Workspace {
    pub fn new(heap: Global) -> Result<Workspace, AllocError>
        ensures { IfOk result (λ w. 192 ≤ vec_capacity w.copies.held) }
    {
        let copies = Buffer::new(heap)?;
        let lates = Buffer::new(heap)?;
        Ok(Workspace { copies, lates })
    }
}
