ghost use Rattle.std.specs.Prelude.{◌≡◌, if◌then◌else◌};
ghost use Rattle.roster.specs.Changes.{with_job};
ghost use Rattle.planner.specs.Answers.{pin_answer, pin_jobs};
ghost use Rattle.first_fit.specs.Choices.{placement_of};
ghost use Rattle.first_fit.specs.Trying.{tried};

use crate::admit::admit;
use crate::plan::Plan;
use first_fit::try_choice;
use orders::SearchOrder;
use precedence::Precedence;
use rack::{Placement, Status};
use terms::{Draft, Refusal, Terms};

impl<R: Precedence + Drop, O: SearchOrder + Drop> Plan<R, O> {
    // Tries one choice by its numbers, which may be of no machine.
    fn try_at(&mut self, terms: Terms, primary: u32, standby: u32, status: Status) -> bool
        ensures test { result ≡ tried (R.Precedence.before self.old.rule) self.old.roster.machines self.old.roster.placements.items (placement_of terms primary standby status) }
        ensures jobs { self.new.roster.placements.items ≡ (if result then with_job (placement_of terms primary standby status) self.old.roster.placements.items else self.old.roster.placements.items) }
        ensures same { (self.new.rule ≡ self.old.rule) × (self.new.order ≡ self.old.order) × (self.new.roster.machines ≡ self.old.roster.machines) }
    {
        let (Ok(primary), Ok(standby)) = (u8::try_from(primary), u8::try_from(standby)) else {
            return false;
        };
        let p = Placement {
            terms,
            primary,
            standby,
            status,
        };
        try_choice(&self.rule, &mut self.roster, &mut self.space, p)
    }

    // Plans a job on the machines and with the status that are given, if the plan then passes.
    pub fn pin(
        &mut self,
        draft: Draft,
        primary: u32,
        standby: u32,
        status: u32,
    ) -> Result<(), Refusal>
        ensures answer { result ≡ pin_answer (R.Precedence.before self.old.rule) self.old.roster.machines self.old.roster.placements.items draft primary standby status }
        ensures jobs { self.new.roster.placements.items ≡ pin_jobs (R.Precedence.before self.old.rule) self.old.roster.machines self.old.roster.placements.items draft primary standby status }
        ensures same { (self.new.rule ≡ self.old.rule) × (self.new.order ≡ self.old.order) × (self.new.roster.machines ≡ self.old.roster.machines) }
    {
        let terms = admit(&self.roster, draft)?;
        let Ok(status) = Status::try_from(status) else {
            return Err(Refusal::Pin);
        };
        if self.try_at(terms, primary, standby, status) {
            Ok(())
        } else {
            Err(Refusal::Pin)
        }
    }
}
