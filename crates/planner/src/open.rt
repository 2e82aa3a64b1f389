ghost use Rattle.std.specs.Prelude.{◌≡◌, [], if◌then◌else◌};
ghost use Rattle.planner.specs.Answers.{is_count, open_answer};

use crate::plan::Plan;
use orders::SearchOrder;
use precedence::Precedence;
use terms::Refusal;

impl<R: Precedence + Drop, O: SearchOrder + Drop> Plan<R, O> {
    // Begins again with an empty plan of so many machines. Without jobs a plan passes under every rule.
    pub fn open(&mut self, machines: u32) -> Result<(), Refusal>
        ensures answer { result ≡ open_answer machines }
        ensures machines { self.new.roster.machines ≡ (if is_count machines then machines else self.old.roster.machines) }
        ensures jobs { self.new.roster.placements.items ≡ (if is_count machines then [] else self.old.roster.placements.items) }
        ensures same { (self.new.rule ≡ self.old.rule) × (self.new.order ≡ self.old.order) }
    {
        if self.roster.reset(machines) {
            Ok(())
        } else {
            Err(Refusal::MachineCount)
        }
    }
}
