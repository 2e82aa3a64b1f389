ghost use Rattle.std.specs.Prelude.{◌≡◌, true, false, map, MatchOption};
ghost use Rattle.rack.specs.Sets.{passive_late};
ghost use Rattle.plantest.specs.Sweep.{quiet_passes};

use crate::tested::Tested;
use crate::workspace::{Copies, Lates};
use precedence::Precedence;

// A plan under test, and how late each of its standbys is while it is passive. The latenesses stand beside the
// placements, since they fill the workspace's memory and the placements are a roster's or a caller's.
#[derive(Drop)]
pub(crate) struct Known<'a, R: Precedence> {
    pub(crate) tested: &'a Tested<'a, R>,
    pub(crate) lates: &'a [u32],
    ghost right: { lates.now ≡ map (passive_late (R.Precedence.before tested.now.rule.now) tested.now.placements.now) tested.now.placements.now },
}

impl<'a, R: Precedence> Known<'a, R> {
    // Of any plan. `collect` would ask for new memory.
    pub(crate) fn of(
        tested: &'a Tested<'a, R>,
        copies: &mut Copies,
        lates: &'a mut Lates,
    ) -> Known<'a, R>
        ensures { result.tested.now ≡ tested.now }
    {
        lates.clear();
        for p in tested.placements {
            lates.push(tested.late_of(p, copies));
        }
        Known {
            tested,
            lates: lates.as_slice(),
        }
    }

    // Of a plan in which every primary has its quiet figure.
    pub(crate) fn of_quiet(
        tested: &'a Tested<'a, R>,
        copies: &mut Copies,
        lates: &'a mut Lates,
    ) -> Option<Known<'a, R>>
        ensures { MatchOption result (quiet_passes (R.Precedence.before tested.now.rule.now) tested.now.placements.now ≡ false) (λ k. (k.tested.now ≡ tested.now) × (quiet_passes (R.Precedence.before tested.now.rule.now) tested.now.placements.now ≡ true)) }
    {
        lates.clear();
        for p in tested.placements {
            lates.push(tested.quiet_of(p, copies)?);
        }
        Some(Known {
            tested,
            lates: lates.as_slice(),
        })
    }
}
