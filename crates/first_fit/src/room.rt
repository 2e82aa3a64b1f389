ghost use Rattle.std.specs.Prelude.{◌≡◌, ◌≤◌, ℕ, false, length, drop};
ghost use Rattle.rack.specs.Test.{all_of};
ghost use Rattle.rack.specs.declared.placement.Status.{Status};
ghost use Rattle.first_fit.specs.Choices.{first_choice};
ghost use Rattle.first_fit.specs.Room.{quiet_on};
ghost use Rattle.first_fit.specs.Trying.{tried_at};

use crate::search::Search;
use crate::trying::take_back;
use plantest::{Workspace, quiet_figure};
use precedence::Precedence;
use rack::{Placement, Status};
use roster::Roster;

impl<R: Precedence> Search<'_, R> {
    // Whether each job whose primary stands on g has its quiet figure.
    fn all_quiet_on(&self, roster: &Roster, space: &mut Workspace, g: u8) -> bool
        ensures { result ≡ all_of (quiet_on (R.Precedence.before self.now.rule.now) roster.now.placements.items g) roster.now.placements.items }
    {
        // No `all`: as in the plan test, the closure would change `space`, and the goal of `all` stays open.
        for p in roster.placements() {
            if p.primary == g && quiet_figure(self.rule, roster, p, space).is_none() {
                return false;
            }
        }
        true
    }

    // Whether the job's primary may find room on this machine: where it may not, no standby and no status passes.
    // A machine's quiet figures do not go by the standby of a primary on it, so that one choice tells of all.
    pub(crate) fn has_room(&self, roster: &mut Roster, space: &mut Workspace, primary: u8) -> bool
        ensures none { result ≡ false → (b : ℕ) (status : Status) → tried_at (R.Precedence.before self.now.rule.now) roster.old.machines roster.old.placements.items self.now.terms primary status b ≡ false }
        ensures jobs { roster.new.placements.items ≡ roster.old.placements.items }
        ensures machines { roster.new.machines ≡ roster.old.machines }
    {
        let standby = if primary == 0 { 1 } else { 0 };
        let p = Placement {
            terms: self.terms,
            primary,
            standby,
            status: Status::Passive,
        };
        if !roster.insert(p) {
            return true;
        }
        let quiet = self.all_quiet_on(roster, space, primary);
        take_back(roster, &p);
        quiet
    }

    // The place in the turns of the first machine where it may; their length where there is none.
    pub(crate) fn first_room(&self, roster: &mut Roster, space: &mut Workspace) -> usize
        ensures within { result ≤ length self.now.turns.now }
        ensures chosen { first_choice (tried_at (R.Precedence.before self.now.rule.now) roster.old.machines roster.old.placements.items self.now.terms) self.now.turns.now self.now.turns.now ≡ first_choice (tried_at (R.Precedence.before self.now.rule.now) roster.old.machines roster.old.placements.items self.now.terms) (drop result self.now.turns.now) self.now.turns.now }
        ensures jobs { roster.new.placements.items ≡ roster.old.placements.items }
        ensures machines { roster.new.machines ≡ roster.old.machines }
    {
        // No `position`: its closure would change the roster and `space`.
        for (i, primary) in self.turns.iter().enumerate() {
            if self.has_room(roster, space, *primary) {
                return i;
            }
        }
        self.turns.len()
    }
}
