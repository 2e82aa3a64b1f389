ghost use Rattle.std.specs.Prelude.{◌≤◌, IfOk, vec_capacity};

use buffer::Buffer;
use std::alloc::{AllocError, Global};

// A figure of each job, with room for 96 jobs and one job more.
pub(crate) type Figures = Buffer<u32, 97>;

// Memory for one search: the quiet figures of the jobs there, with a place for one job more, and those with the
// job that is tried. It is there from the start, so that a search cannot fail for want of memory. What it holds
// between searches is free.
#[derive(Drop)]
pub struct Latenesses {
    pub(crate) known: Figures,
    pub(crate) tried: Figures,
}

impl Latenesses {
    pub fn new(heap: Global) -> Result<Latenesses, AllocError>
        ensures { IfOk result (λ l. (97 ≤ vec_capacity l.known.held) × (96 ≤ vec_capacity l.tried.held)) }
    {
        let known = Buffer::new(heap)?;
        let tried = Buffer::new(heap)?;
        Ok(Latenesses { known, tried })
    }
}
