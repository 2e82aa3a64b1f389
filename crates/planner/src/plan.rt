ghost use Rattle.std.specs.Prelude.{◌≡◌, true, [], IfOk};
ghost use Rattle.rack.specs.Test.{passes};

use buffer::Buffer;
use first_fit::Latenesses;
use orders::SearchOrder;
use plantest::Workspace;
use precedence::Precedence;
use rack::Placement;
use roster::Roster;
use std::alloc::{AllocError, Global};

// A plan, the rule and the search order that it goes by, and memory for its tests.
#[derive(Drop)]
pub struct Plan<R: Precedence, O: SearchOrder> {
    pub(crate) rule: R,
    pub(crate) order: O,
    pub(crate) roster: Roster,
    pub(crate) space: Workspace,
    pub(crate) lates: Latenesses,
    // the plan as a search tries choices in it, or of a file that is being adopted
    pub(crate) spare: Roster,
    // the placements of a file as they are read
    pub(crate) incoming: Buffer<Placement, 96>,
    // every plan passes: an empty one does, and each call keeps it so
    // (the calls' clauses `same` stay: nothing in a type says that a `&mut self` call keeps rule and order)
    ghost passing: { passes (R.Precedence.before rule) roster.machines roster.placements.items ≡ true },
}

impl<R: Precedence + Drop, O: SearchOrder + Drop> Plan<R, O> {
    // An empty plan of the fewest machines. All memory that its calls need is taken here.
    pub fn new(heap: Global, rule: R, order: O) -> Result<Plan<R, O>, AllocError>
        ensures { IfOk result (λ plan. (plan.rule ≡ rule) × (plan.order ≡ order) × (plan.roster.machines ≡ 2) × (plan.roster.placements.items ≡ [])) }
    {
        let roster = Roster::new(heap)?;
        let space = Workspace::new(heap)?;
        let lates = Latenesses::new(heap)?;
        let spare = Roster::new(heap)?;
        let incoming = Buffer::new(heap)?;
        Ok(Plan {
            rule,
            order,
            roster,
            space,
            lates,
            spare,
            incoming,
        })
    }
}
