ghost use Rattle.std.specs.Prelude.{◌≡◌, Ok, Err, is_ok, if◌then◌else◌};
ghost use Rattle.terms.specs.declared.refusal.Refusal.TheVariants.{NotAPlan};
ghost use Rattle.planner.specs.Filed.{AdoptMeans, HeldIn, adopt_answer, adopt_plan, refused_with};

use crate::plan::Plan;
use orders::SearchOrder;
use planfile::read_plan;
use plantest::roster_passes;
use precedence::Precedence;
use std::mem;
use terms::Refusal;

impl<R: Precedence + Drop, O: SearchOrder + Drop> Plan<R, O> {
    // Reads the plan of a file into `spare`, or answers refusal 8.
    fn read_spare(&mut self, bytes: &[u8]) -> Result<(), Refusal>
        ensures held { HeldIn R.Precedence.code bytes.now (is_ok result) self.new.spare.machines self.new.spare.placements.items }
        ensures refused { result ≡ (if is_ok result then Ok tt else Err NotAPlan) }
        ensures same { (self.new.rule ≡ self.old.rule) × (self.new.order ≡ self.old.order) × (self.new.roster ≡ self.old.roster) }
    {
        let out = &mut self.incoming.held;
        let Ok(Some(machines)) = read_plan(R::its_code(), bytes, out) else {
            return Err(Refusal::NotAPlan);
        };
        if self.spare.take_over(machines, out) {
            Ok(())
        } else {
            Err(Refusal::NotAPlan)
        }
    }

    // Takes over the plan of a file, if it passes; or refusal 8 or 9.
    fn take_file(&mut self, bytes: &[u8]) -> Result<(), Refusal>
        ensures answer { result ≡ adopt_answer (R.Precedence.before self.old.rule) R.Precedence.code bytes.now }
        ensures plan { (self.new.roster.machines, self.new.roster.placements.items) ≡ adopt_plan (R.Precedence.before self.old.rule) R.Precedence.code bytes.now (self.old.roster.machines, self.old.roster.placements.items) }
        ensures same { (self.new.rule ≡ self.old.rule) × (self.new.order ≡ self.old.order) }
    {
        self.read_spare(bytes)?;
        if !roster_passes(&self.rule, &self.spare, &mut self.space) {
            return Err(Refusal::PlanFails);
        }
        mem::swap(&mut self.roster, &mut self.spare);
        Ok(())
    }

    // Replaces machine count and jobs by those of a plan file, if its plan passes; or refusal 8 or 9.
    pub fn adopt(&mut self, bytes: &[u8]) -> Result<(), Refusal>
        ensures answer { result ≡ adopt_answer (R.Precedence.before self.old.rule) R.Precedence.code bytes.now }
        ensures plan { (self.new.roster.machines, self.new.roster.placements.items) ≡ adopt_plan (R.Precedence.before self.old.rule) R.Precedence.code bytes.now (self.old.roster.machines, self.old.roster.placements.items) }
        ensures same { (self.new.rule ≡ self.old.rule) × (self.new.order ≡ self.old.order) }
        ensures means { AdoptMeans (R.Precedence.before self.old.rule) R.Precedence.code bytes.now (refused_with result) (self.old.roster.machines, self.old.roster.placements.items) (self.new.roster.machines, self.new.roster.placements.items) }
    {
        self.take_file(bytes)
    }
}
