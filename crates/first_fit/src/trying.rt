ghost use Rattle.std.specs.Prelude.{◌≡◌, if◌then◌else◌};
ghost use Rattle.first_fit.specs.Trying.{tried};
ghost use Rattle.roster.specs.Changes.{with_job, without};

use plantest::{Workspace, roster_passes};
use precedence::Precedence;
use rack::Placement;
use roster::Roster;

// Takes a job out again.
pub(crate) fn take_back(roster: &mut Roster, p: &Placement)
    ensures jobs { roster.new.placements.items ≡ without p.now.terms.number roster.old.placements.items }
    ensures machines { roster.new.machines ≡ roster.old.machines }
{
    let _ = roster.remove(p.terms.number());
}

// Puts the job in, and takes it out again unless the plan then passes.
#[tactic(auto, using(crate::proofs::Tries::tried_fails, crate::proofs::Tries::in_and_out))]
pub fn try_choice<R: Precedence>(
    rule: &R,
    roster: &mut Roster,
    space: &mut Workspace,
    p: Placement,
) -> bool
    ensures test { result ≡ tried (R.Precedence.before rule.now) roster.old.machines roster.old.placements.items p }
    ensures jobs { roster.new.placements.items ≡ (if result then with_job p roster.old.placements.items else roster.old.placements.items) }
    ensures machines { roster.new.machines ≡ roster.old.machines }
{
    if !roster.insert(p) {
        return false;
    }
    if roster_passes(rule, roster, space) {
        return true;
    }
    take_back(roster, &p);
    false
}
