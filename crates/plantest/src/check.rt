ghost use Rattle.std.specs.Prelude.{◌≡◌, IfOk};
ghost use Rattle.rack.specs.Test.{passes};
ghost use Rattle.plantest.specs.Verdicts.{Means};

use crate::known::Known;
use crate::tested::Tested;
use crate::verdict::Verdict;
use crate::workspace::Workspace;
use precedence::Precedence;
use rack::Placement;
use roster::Roster;
use std::alloc::{AllocError, Global};

impl<'a, R: Precedence> Tested<'a, R> {
    // Whether the plan passes.
    fn passes(&self, space: &mut Workspace) -> bool
        ensures { result ≡ passes (R.Precedence.before self.now.rule.now) self.now.machines self.now.placements.now }
    {
        let Workspace { copies, lates } = space;
        let Some(known) = Known::of_quiet(self, copies, lates) else {
            return false;
        };
        // No `all`, as in `machine_fits`.
        for g in 0..self.machines {
            if !known.machine_fits(g, copies) {
                return false;
            }
        }
        true
    }
}

// What the test says of a list of placements, and what that promises.
fn judge<R: Precedence>(
    rule: &R,
    machines: u8,
    placements: &[Placement],
    space: &mut Workspace,
) -> Verdict
    ensures { Means (R.Precedence.before rule.now) machines placements.now result }
{
    match Tested::checked(rule, machines, placements) {
        None => Verdict::NoPlan,
        Some(plan) if plan.passes(space) => Verdict::Passing,
        Some(_) => Verdict::Fails,
    }
}

// The plan test over any list of placements, for any rule that keeps its laws.
pub fn check_plan<R: Precedence>(
    heap: Global,
    rule: &R,
    machines: u8,
    placements: &[Placement],
) -> Result<Verdict, AllocError>
    ensures { IfOk result (λ v. Means (R.Precedence.before rule.now) machines placements.now v) }
{
    let mut space = Workspace::new(heap)?;
    Ok(judge(rule, machines, placements, &mut space))
}

// Whether the plan of a roster passes. Needs no memory but the workspace.
pub fn roster_passes<R: Precedence>(rule: &R, roster: &Roster, space: &mut Workspace) -> bool
    ensures { result ≡ passes (R.Precedence.before rule.now) roster.now.machines roster.now.placements.items }
{
    Tested::of(rule, roster).passes(space)
}
