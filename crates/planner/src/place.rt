ghost use Rattle.std.specs.Prelude.{◌≡◌};
ghost use Rattle.roster.specs.Loads.{loads};
ghost use Rattle.planner.specs.Answers.{admitted, jobs_with, place_answer, place_jobs, tried_answer};
ghost use Rattle.planner.specs.Refused.{PlaceMeans};
ghost use Rattle.first_fit.specs.Trying.{choice_jobs, tried_first};

use crate::admit::admit;
use crate::plan::Plan;
use crate::turns::turns_of;
use first_fit::{Passing, first_beside};
use orders::SearchOrder;
use precedence::Precedence;
use rack::Status;
use std::mem;
use terms::{Draft, Refusal, Terms};

impl<R: Precedence + Drop, O: SearchOrder + Drop> Plan<R, O> {
    // The first choice in the order's turns under the loads now.
    #[tactic(auto, using(crate::proofs::Choosing::choice_passes))]
    fn try_in_turn(&mut self, terms: Terms) -> Option<(u8, u8, Status)>
        ensures chosen { result ≡ tried_first (R.Precedence.before self.old.rule) self.old.roster.machines self.old.roster.placements.items terms (O.SearchOrder.turns self.old.order self.old.roster.machines (loads self.old.roster.placements.items)) }
        ensures jobs { self.new.roster.placements.items ≡ choice_jobs terms self.old.roster.placements.items result }
        ensures same { (self.new.rule ≡ self.old.rule) × (self.new.order ≡ self.old.order) × (self.new.roster.machines ≡ self.old.roster.machines) }
    {
        let machines = self.roster.machines();
        let all = turns_of(&self.order, machines, &self.roster.loads());
        let plan = Passing {
            rule: &self.rule,
            roster: &self.roster,
        };
        let choice = first_beside(
            &plan,
            &mut self.spare,
            &mut self.space,
            &mut self.lates,
            terms,
            &all[..machines as usize],
        );
        // the plan after the search, as it was where there is no choice
        mem::swap(&mut self.roster, &mut self.spare);
        choice
    }

    // Tries the choices for a draft that may be planned, and answers the first that passed; or the refusal.
    fn try_draft(&mut self, draft: Draft) -> Result<(u8, u8, Status), Refusal>
        ensures answer { result ≡ tried_answer (λ terms. tried_first (R.Precedence.before self.old.rule) self.old.roster.machines self.old.roster.placements.items terms (O.SearchOrder.turns self.old.order self.old.roster.machines (loads self.old.roster.placements.items))) (admitted self.old.roster.placements.items draft) }
        ensures jobs { self.new.roster.placements.items ≡ jobs_with self.old.roster.placements.items (admitted self.old.roster.placements.items draft) result }
        ensures same { (self.new.rule ≡ self.old.rule) × (self.new.order ≡ self.old.order) × (self.new.roster.machines ≡ self.old.roster.machines) }
    {
        let terms = admit(&self.roster, draft)?;
        self.try_in_turn(terms).ok_or(Refusal::NoPlace)
    }

    // Finds machines and a status for a job, and plans it.
    // Primary, standby and status stand as a triple: the form in which the calls answer is fixed.
    pub fn place(&mut self, draft: Draft) -> Result<(u8, u8, Status), Refusal>
        ensures answer { result ≡ place_answer (R.Precedence.before self.old.rule) (O.SearchOrder.turns self.old.order) self.old.roster.machines self.old.roster.placements.items draft }
        ensures jobs { self.new.roster.placements.items ≡ place_jobs (R.Precedence.before self.old.rule) (O.SearchOrder.turns self.old.order) self.old.roster.machines self.old.roster.placements.items draft }
        ensures same { (self.new.rule ≡ self.old.rule) × (self.new.order ≡ self.old.order) × (self.new.roster.machines ≡ self.old.roster.machines) }
        ensures means { PlaceMeans (R.Precedence.before self.old.rule) self.old.roster.machines self.old.roster.placements.items draft result }
    {
        self.try_draft(draft)
    }
}
