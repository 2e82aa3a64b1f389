ghost use Rattle.std.specs.Prelude.{◌≡◌};
ghost use Rattle.plantest.specs.PlanTest.{each_once, has_number, is_plan};

use rack::Placement;
use roster::all_placed_in;

// Whether a job of this number is among the placements.
fn has_number_in(placements: &[Placement], number: u32) -> bool
    ensures { result ≡ has_number number placements.now }
{
    placements.iter().any(|p| p.terms.number() == number)
}

// Whether each job number stands once.
fn each_once_in(placements: &[Placement]) -> bool
    ensures { result ≡ each_once placements.now }
{
    let mut rest = placements;
    while let Some((p, after)) = rest.split_first() {
        if has_number_in(after, p.terms.number()) {
            return false;
        }
        rest = after;
    }
    true
}

// Whether the placements are a plan of so many machines. Their numbers may stand in any order, but for which a roster's
// own test of a list is the same.
pub(crate) fn is_plan_of(machines: u8, placements: &[Placement]) -> bool
    ensures { result ≡ is_plan machines placements.now }
{
    (2..=16).contains(&machines)
        && placements.len() <= 96
        && all_placed_in(machines, placements)
        && each_once_in(placements)
}
