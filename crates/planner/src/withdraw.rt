ghost use Rattle.std.specs.Prelude.{◌≡◌};
ghost use Rattle.roster.specs.Changes.{without};
ghost use Rattle.planner.specs.Answers.{withdraw_answer};

use crate::plan::Plan;
use orders::SearchOrder;
use precedence::Precedence;
use roster::Roster;
use terms::Refusal;

// Takes a job out of a roster, or answers refusal 6.
fn take_out(roster: &mut Roster, number: u32) -> Result<(), Refusal>
    ensures answer { result ≡ withdraw_answer roster.old.placements.items number }
    ensures jobs { roster.new.placements.items ≡ without number roster.old.placements.items }
    ensures machines { roster.new.machines ≡ roster.old.machines }
{
    roster.remove(number).ok_or(Refusal::Unknown)?;
    Ok(())
}

impl<R: Precedence + Drop, O: SearchOrder + Drop> Plan<R, O> {
    // Takes a job out of the plan, or answers refusal 6. Fewer jobs never hurt, so nothing is tested.
    pub fn withdraw(&mut self, number: u32) -> Result<(), Refusal>
        ensures answer { result ≡ withdraw_answer self.old.roster.placements.items number }
        ensures jobs { self.new.roster.placements.items ≡ without number self.old.roster.placements.items }
        ensures same { (self.new.rule ≡ self.old.rule) × (self.new.order ≡ self.old.order) × (self.new.roster.machines ≡ self.old.roster.machines) }
    {
        take_out(&mut self.roster, number)
    }
}
