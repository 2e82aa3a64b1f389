ghost use Rattle.std.specs.Prelude.{◌≡◌, true};
ghost use Rattle.rack.specs.Test.{passes};
ghost use Rattle.first_fit.specs.Trying.{choice_jobs, tried_first};

use crate::knowing::known_of;
use crate::latenesses::Latenesses;
use crate::search::Search;
use plantest::Workspace;
use precedence::Precedence;
use rack::Status;
use roster::Roster;
use terms::Terms;

// A roster whose plan passes under a rule.
#[derive(Drop)]
pub struct Passing<'a, R: Precedence> {
    pub rule: &'a R,
    pub roster: &'a Roster,
    ghost passes: { passes (R.Precedence.before rule.now) roster.now.machines roster.now.placements.items ≡ true },
}

// The first choice in these turns, tried in a copy of a plan that passes.
#[tactic(auto, unfolding(crate::specs::Trying::tried_first))]
fn search_from<R: Precedence>(
    rule: &R,
    roster: &Roster,
    trial: &mut Roster,
    space: &mut Workspace,
    lates: &mut Latenesses,
    terms: Terms,
    turns: &[u8],
) -> Option<(u8, u8, Status)>
    requires passes { passes (R.Precedence.before rule.now) roster.now.machines roster.now.placements.items ≡ true }
    requires machines { trial.old.machines ≡ roster.now.machines }
    requires jobs { trial.old.placements.items ≡ roster.now.placements.items }
    ensures chosen { result ≡ tried_first (R.Precedence.before rule.now) roster.now.machines roster.now.placements.items terms turns.now }
    ensures jobs { trial.new.placements.items ≡ choice_jobs terms roster.now.placements.items result }
    ensures machines { trial.new.machines ≡ roster.now.machines }
{
    let search = Search {
        rule,
        terms,
        turns,
        known: &[],
    };
    // by itself, since the figures that further choices share cost more than this one
    let (first, _) = turns.split_first()?;
    let choice = search.try_first(trial, space, &mut lates.tried, *first);
    if choice.is_some() {
        return choice;
    }
    let at = search.first_room(trial, space);
    let (first, later) = turns[at..].split_first()?;
    let known = known_of(rule, roster, space, &mut lates.known, terms);
    let search = Search { known, ..search };
    let choice = search.try_statuses(trial, space, &mut lates.tried, *first);
    if choice.is_some() {
        return choice;
    }
    search.try_primaries(trial, space, &mut lates.tried, later)
}

// The first choice in these turns with which the plan passes. `trial` is then the plan with it, and the plan as it was
// where there is none. What `first_passing` answers, without a test of the plan by itself; and where no machine has room
// for the job's primary, figures of jobs elsewhere are sought for the first choice alone.
pub fn first_beside<R: Precedence>(
    plan: &Passing<R>,
    trial: &mut Roster,
    space: &mut Workspace,
    lates: &mut Latenesses,
    terms: Terms,
    turns: &[u8],
) -> Option<(u8, u8, Status)>
    ensures chosen { result ≡ tried_first (R.Precedence.before plan.now.rule.now) plan.now.roster.now.machines plan.now.roster.now.placements.items terms turns.now }
    ensures jobs { trial.new.placements.items ≡ choice_jobs terms plan.now.roster.now.placements.items result }
    ensures machines { trial.new.machines ≡ plan.now.roster.now.machines }
{
    trial.copy_from(plan.roster);
    search_from(plan.rule, plan.roster, trial, space, lates, terms, turns)
}
