ghost use Rattle.std.specs.Prelude.{◌≡◌};
ghost use Rattle.planner.specs.Figures.{figures_answer};

use crate::plan::Plan;
use orders::SearchOrder;
use plantest::job_figures;
use precedence::Precedence;
use terms::Refusal;

impl<R: Precedence + Drop, O: SearchOrder + Drop> Plan<R, O> {
    // The job's quiet figure, its largest primary figure over the loss sets, and its standby figure; or refusal 6.
    // They stand as a triple: the form in which the calls answer is fixed.
    pub fn figures(&mut self, number: u32) -> Result<(u32, u32, u32), Refusal>
        ensures answer { result ≡ figures_answer (R.Precedence.before self.old.rule) self.old.roster.machines self.old.roster.placements.items number }
        ensures same { (self.new.rule ≡ self.old.rule) × (self.new.order ≡ self.old.order) × (self.new.roster ≡ self.old.roster) }
    {
        let p = self.roster.find(number).ok_or(Refusal::Unknown)?;
        Ok(job_figures(&self.rule, &self.roster, &p, &mut self.space))
    }
}
