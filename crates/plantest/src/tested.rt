ghost use Rattle.std.specs.Prelude.{◌≡◌, ◌≤◌, true, length, MatchOption};
ghost use Rattle.rack.specs.Plan.{Plan};
ghost use Rattle.plantest.specs.PlanTest.{is_plan};

use crate::listing::is_plan_of;
use precedence::Precedence;
use rack::Placement;
use roster::Roster;

// A plan, and the rule that it is tested under.
#[derive(Drop)]
pub(crate) struct Tested<'a, R: Precedence> {
    pub(crate) rule: &'a R,
    pub(crate) machines: u8,
    pub(crate) placements: &'a [Placement],
    ghost few: { length placements.now ≤ 96 },
    ghost is_plan: { is_plan machines placements.now ≡ true },
}

impl<'a, R: Precedence> Tested<'a, R> {
    // The plan of a roster.
    pub(crate) fn of(rule: &'a R, roster: &'a Roster) -> Tested<'a, R>
        ensures rule { result.rule.now ≡ rule.now }
        ensures machines { result.machines ≡ roster.now.machines }
        ensures placements { result.placements.now ≡ roster.now.placements.items }
    {
        Tested {
            rule,
            machines: roster.machines(),
            placements: roster.placements(),
        }
    }

    // The placements, if they are a plan of so many machines.
    pub(crate) fn checked(
        rule: &'a R,
        machines: u8,
        placements: &'a [Placement],
    ) -> Option<Tested<'a, R>>
        ensures { MatchOption result (Plan machines placements.now → ⊥) (λ t. (t.rule.now ≡ rule.now) × (t.machines ≡ machines) × (t.placements.now ≡ placements.now)) }
    {
        if !is_plan_of(machines, placements) {
            return None;
        }
        Some(Tested {
            rule,
            machines,
            placements,
        })
    }
}
