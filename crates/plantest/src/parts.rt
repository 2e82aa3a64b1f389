ghost use Rattle.std.specs.Prelude.{◌≡◌};
ghost use Rattle.rack.specs.Sets.{passive_late, quiet_figure};
ghost use Rattle.plantest.specs.Sweep.{pair_with};

use crate::tested::Tested;
use crate::workspace::Workspace;
use precedence::Precedence;
use rack::Placement;
use roster::Roster;

// Rule, roster and workspace are parameters of what this crate offers, since its callers hold them apart; `Tested` is
// made of them here.

// The quiet figure of a job in the plan of a roster.
pub fn quiet_figure<R: Precedence>(
    rule: &R,
    roster: &Roster,
    p: &Placement,
    space: &mut Workspace,
) -> Option<u32>
    ensures { result ≡ quiet_figure (R.Precedence.before rule.now) roster.now.placements.items p.now }
{
    Tested::of(rule, roster).quiet_of(p, &mut space.copies)
}

// How late the standby of a job is while it is passive, in the plan of a roster.
pub fn passive_lateness<R: Precedence>(
    rule: &R,
    roster: &Roster,
    p: &Placement,
    space: &mut Workspace,
) -> u32
    ensures { result ≡ passive_late (R.Precedence.before rule.now) roster.now.placements.items p.now }
{
    Tested::of(rule, roster).late_of(p, &mut space.copies)
}

// Whether there is a lateness for each placement of a roster, and every copy in the loss set of g when f stops
// has its figure there with these as the latenesses of the passive standbys.
pub fn pair_passes<R: Precedence>(
    rule: &R,
    roster: &Roster,
    lates: &[u32],
    g: u8,
    f: u8,
    space: &mut Workspace,
) -> bool
    ensures { result ≡ pair_with (R.Precedence.before rule.now) lates.now roster.now.placements.items g f }
{
    let plan = Tested::of(rule, roster);
    lates.len() == plan.placements.len() && plan.pair_fits_with(lates, g, f, &mut space.copies)
}
