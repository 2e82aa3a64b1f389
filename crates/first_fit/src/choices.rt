ghost use Rattle.std.specs.Prelude.{◌≡◌, ◌==◌, if◌then◌else◌, not, None, Some, IfSome};
ghost use Rattle.std.specs.List.{find};
ghost use Rattle.first_fit.specs.Beside.{Ready, ReadyYet};
ghost use Rattle.first_fit.specs.Choices.{first_choice, first_standby, first_with};
ghost use Rattle.first_fit.specs.Trying.{choice_jobs, jobs_at, tried, tried_at, tried_first};
ghost use Rattle.roster.specs.Changes.{with_job};

use crate::knowing::know;
use crate::latenesses::{Figures, Latenesses};
use crate::search::Search;
use crate::trying::take_back;
use plantest::Workspace;
use precedence::Precedence;
use rack::{Placement, Status};
use roster::Roster;
use terms::Terms;

// The first machine in turn other than this one.
fn other_than(turns: &[u8], primary: u8) -> Option<u8>
    ensures { result ≡ find (λ b. not (b == primary)) turns.now }
{
    turns.iter().copied().find(|machine| *machine != primary)
}

// Roster and memory are parameters and no fields: behind `&mut self` each method would have to say besides that its
// references are still the same ones and that all else stays.
// `Ready` stays a clause, since the roster that it speaks of changes between calls.
impl<R: Precedence> Search<'_, R> {
    // Puts the job into a plan that passes, and takes it out again unless the plan still does.
    // It differs from `try_choice` in the test alone. To pass the test as a closure to one function for both, that
    // function would need the closure's contract as clauses of its own, which are longer than these bodies.
    #[tactic(auto, using(crate::proofs::Touches::tried_touched, crate::proofs::Tries::in_and_out))]
    fn try_beside(
        &self,
        roster: &mut Roster,
        space: &mut Workspace,
        lates: &mut Figures,
        p: Placement,
    ) -> bool
        requires { ReadyYet (R.Precedence.before self.now.rule.now) roster.old.machines roster.old.placements.items p.terms self.now.known.now }
        ensures test { result ≡ tried (R.Precedence.before self.now.rule.now) roster.old.machines roster.old.placements.items p }
        ensures jobs { roster.new.placements.items ≡ (if result then with_job p roster.old.placements.items else roster.old.placements.items) }
        ensures machines { roster.new.machines ≡ roster.old.machines }
    {
        if !roster.insert(p) {
            return false;
        }
        if self.passes_beside(roster, space, lates, &p) {
            return true;
        }
        take_back(roster, &p);
        false
    }

    // The first choice of all with this primary, if it passes: passive on the first other machine in turn.
    pub(crate) fn try_first(
        &self,
        roster: &mut Roster,
        space: &mut Workspace,
        lates: &mut Figures,
        primary: u8,
    ) -> Option<(u8, u8, Status)>
        requires { ReadyYet (R.Precedence.before self.now.rule.now) roster.old.machines roster.old.placements.items self.now.terms self.now.known.now }
        ensures chosen { IfSome result (λ c. first_with (tried_at (R.Precedence.before self.now.rule.now) roster.old.machines roster.old.placements.items self.now.terms primary) primary self.now.turns.now None ≡ Some c) }
        ensures jobs { roster.new.placements.items ≡ choice_jobs self.now.terms roster.old.placements.items result }
        ensures machines { roster.new.machines ≡ roster.old.machines }
    {
        let standby = other_than(self.turns, primary)?;
        let p = Placement {
            terms: self.terms,
            primary,
            standby,
            status: Status::Passive,
        };
        if self.try_beside(roster, space, lates, p) {
            Some((primary, standby, Status::Passive))
        } else {
            None
        }
    }

    // The first standby in turn with which the job passes on this primary and with this status.
    pub(crate) fn try_standbys(
        &self,
        roster: &mut Roster,
        space: &mut Workspace,
        lates: &mut Figures,
        primary: u8,
        status: Status,
    ) -> Option<u8>
        requires { Ready (R.Precedence.before self.now.rule.now) roster.old.machines roster.old.placements.items self.now.terms self.now.known.now }
        ensures chosen { result ≡ first_standby (tried_at (R.Precedence.before self.now.rule.now) roster.old.machines roster.old.placements.items self.now.terms primary status) primary self.now.turns.now }
        ensures jobs { roster.new.placements.items ≡ jobs_at self.now.terms primary status roster.old.placements.items result }
        ensures machines { roster.new.machines ≡ roster.old.machines }
    {
        // No `find`, here and below: the closure would change the roster and `space`, and std's lemmas on `find` ask
        // that no call changes it (as those on `all`, in the plan test).
        for standby in self.turns {
            let p = Placement {
                terms: self.terms,
                primary,
                standby: *standby,
                status,
            };
            if *standby != primary && self.try_beside(roster, space, lates, p) {
                return Some(*standby);
            }
        }
        None
    }

    // The first choice with this primary: passive with each standby in turn, then active.
    pub(crate) fn try_statuses(
        &self,
        roster: &mut Roster,
        space: &mut Workspace,
        lates: &mut Figures,
        primary: u8,
    ) -> Option<(u8, u8, Status)>
        requires { Ready (R.Precedence.before self.now.rule.now) roster.old.machines roster.old.placements.items self.now.terms self.now.known.now }
        ensures chosen { result ≡ first_with (tried_at (R.Precedence.before self.now.rule.now) roster.old.machines roster.old.placements.items self.now.terms primary) primary self.now.turns.now None }
        ensures jobs { roster.new.placements.items ≡ choice_jobs self.now.terms roster.old.placements.items result }
        ensures machines { roster.new.machines ≡ roster.old.machines }
    {
        if let Some(standby) = self.try_standbys(roster, space, lates, primary, Status::Passive) {
            return Some((primary, standby, Status::Passive));
        }
        let standby = self.try_standbys(roster, space, lates, primary, Status::Active)?;
        Some((primary, standby, Status::Active))
    }

    // The same, if the job finds room on this primary.
    fn try_primary(
        &self,
        roster: &mut Roster,
        space: &mut Workspace,
        lates: &mut Figures,
        primary: u8,
    ) -> Option<(u8, u8, Status)>
        requires { Ready (R.Precedence.before self.now.rule.now) roster.old.machines roster.old.placements.items self.now.terms self.now.known.now }
        ensures chosen { result ≡ first_with (tried_at (R.Precedence.before self.now.rule.now) roster.old.machines roster.old.placements.items self.now.terms primary) primary self.now.turns.now None }
        ensures jobs { roster.new.placements.items ≡ choice_jobs self.now.terms roster.old.placements.items result }
        ensures machines { roster.new.machines ≡ roster.old.machines }
    {
        if !self.has_room(roster, space, primary) {
            return None;
        }
        self.try_statuses(roster, space, lates, primary)
    }

    // The first choice with these primaries, each in turn.
    pub(crate) fn try_primaries(
        &self,
        roster: &mut Roster,
        space: &mut Workspace,
        lates: &mut Figures,
        primaries: &[u8],
    ) -> Option<(u8, u8, Status)>
        requires { Ready (R.Precedence.before self.now.rule.now) roster.old.machines roster.old.placements.items self.now.terms self.now.known.now }
        ensures chosen { result ≡ first_choice (tried_at (R.Precedence.before self.now.rule.now) roster.old.machines roster.old.placements.items self.now.terms) primaries.now self.now.turns.now }
        ensures jobs { roster.new.placements.items ≡ choice_jobs self.now.terms roster.old.placements.items result }
        ensures machines { roster.new.machines ≡ roster.old.machines }
    {
        for primary in primaries {
            if let Some(choice) = self.try_primary(roster, space, lates, *primary) {
                return Some(choice);
            }
        }
        None
    }
}

// The first choice in these turns with which the plan passes, put in; where there is none the plan stays as it is.
// Where the plan does not pass by itself, it does not with a further job either.
#[tactic(auto, unfolding(crate::specs::Trying::tried_first))]
pub fn first_passing<R: Precedence>(
    rule: &R,
    roster: &mut Roster,
    space: &mut Workspace,
    lates: &mut Latenesses,
    terms: Terms,
    turns: &[u8],
) -> Option<(u8, u8, Status)>
    ensures chosen { result ≡ tried_first (R.Precedence.before rule.now) roster.old.machines roster.old.placements.items terms turns.now }
    ensures jobs { roster.new.placements.items ≡ choice_jobs terms roster.old.placements.items result }
    ensures machines { roster.new.machines ≡ roster.old.machines }
{
    let known = know(rule, roster, space, &mut lates.known, terms)?;
    let search = Search {
        rule,
        terms,
        turns,
        known,
    };
    search.try_primaries(roster, space, &mut lates.tried, turns)
}
