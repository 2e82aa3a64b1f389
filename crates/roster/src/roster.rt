ghost use Rattle.std.specs.Prelude.{◌≡◌, ◌≤◌, true, [], IfOk, vec_len, vec_capacity};
ghost use Rattle.roster.specs.Rising.{all_placed, rising};

use rack::Placement;
use std::alloc::{AllocError, Global};

// A plan's machines and placements. Memory for 96 placements is there from the start.
#[derive(Drop)]
pub struct Roster {
    pub(crate) machines: u8,
    // Sorted, and no `BTreeMap`: a map may allocate at an insert, and a call must not fail for want of memory.
    pub(crate) placements: Vec<Placement>,
    ghost sized: { (2 ≤ machines) × (machines ≤ 16) },
    ghost few: { vec_len placements ≤ 96 },
    ghost roomy: { 96 ≤ vec_capacity placements },
    ghost rising_numbers: { rising placements.items ≡ true },
    ghost on_the_rack: { all_placed machines placements.items ≡ true },
}

impl Roster {
    // Two machines and no job.
    pub fn new(heap: Global) -> Result<Roster, AllocError>
        ensures { IfOk result (λ roster. (roster.machines ≡ 2) × (roster.placements.items ≡ [])) }
    {
        let placements = Vec::with_capacity(heap, 96)?;
        Ok(Roster {
            machines: 2,
            placements,
        })
    }
}
