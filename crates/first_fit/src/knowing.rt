ghost use Rattle.std.specs.Prelude.{true, ◌≡◌, ◌≤◌, IfSome, is_some, map, vec_len};
ghost use Rattle.std.specs.List.{insert};
ghost use Rattle.rack.specs.Sets.{passive_late};
ghost use Rattle.rack.specs.Test.{passes};
ghost use Rattle.first_fit.specs.Beside.{Ready};

use crate::latenesses::Figures;
use plantest::{Workspace, passive_lateness, roster_passes};
use precedence::Precedence;
use rack::{Placement, Status};
use roster::{Roster, place_for};
use terms::Terms;

// How late the standby of each job is while it is passive.
fn all_lates<R: Precedence>(rule: &R, roster: &Roster, space: &mut Workspace, known: &mut Figures)
    ensures figures { known.new.held.items ≡ map (passive_late (R.Precedence.before rule.now) roster.now.placements.items) roster.now.placements.items }
{
    known.clear();
    // No `extend`: its closure would change `space`, and it may ask for memory.
    for p in roster.placements() {
        known.push(passive_lateness(rule, roster, p, space));
    }
}

// Leaves a place free among the figures of at most 96 jobs.
fn free_place(known: &mut Figures, place: usize)
    requires within { place ≤ vec_len known.old.held }
    requires few { vec_len known.old.held ≤ 96 }
    ensures { known.new.held.items ≡ insert known.old.held.items place 0 }
{
    known.insert(place, 0);
}

// The quiet figures of a plan that passes, which stand whichever choice for these terms is put in.
pub(crate) fn known_of<'a, R: Precedence>(
    rule: &R,
    roster: &Roster,
    space: &mut Workspace,
    known: &'a mut Figures,
    terms: Terms,
) -> &'a [u32]
    requires { passes (R.Precedence.before rule.now) roster.now.machines roster.now.placements.items ≡ true }
    ensures { Ready (R.Precedence.before rule.now) roster.now.machines roster.now.placements.items terms result.now }
{
    all_lates(rule, roster, space, known);
    let p = Placement {
        terms,
        primary: 0,
        standby: 0,
        status: Status::Passive,
    };
    let i = place_for(roster.placements(), &p);
    free_place(known, i);
    known.as_slice()
}

// The same of any plan, if it passes.
pub(crate) fn know<'a, R: Precedence>(
    rule: &R,
    roster: &Roster,
    space: &mut Workspace,
    known: &'a mut Figures,
    terms: Terms,
) -> Option<&'a [u32]>
    ensures test { is_some result ≡ passes (R.Precedence.before rule.now) roster.now.machines roster.now.placements.items }
    ensures ready { IfSome result (λ k. Ready (R.Precedence.before rule.now) roster.now.machines roster.now.placements.items terms k.now) }
{
    if !roster_passes(rule, roster, space) {
        return None;
    }
    Some(known_of(rule, roster, space, known, terms))
}
