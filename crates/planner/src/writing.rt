ghost use Rattle.std.specs.Prelude.{◌≡◌, ◌<◌};
ghost use Rattle.filewriter.specs.Written.{NotesLeftOut, RoundTrip};
ghost use Rattle.planner.specs.Filed.{TakenBack, write_answer, write_bytes};

use crate::plan::Plan;
use filewriter::write_roster;
use orders::SearchOrder;
use precedence::Precedence;
use terms::Refusal;

impl<R: Precedence + Drop, O: SearchOrder + Drop> Plan<R, O> {
    // Writes the plan's file and answers its length; or refusal 10.
    fn write_file(&self, out: &mut [u8]) -> Result<usize, Refusal>
        ensures answer { result ≡ write_answer self.now.roster.placements.items out.old }
        ensures bytes { out.new ≡ write_bytes R.Precedence.code self.now.roster.machines self.now.roster.placements.items out.old }
        ensures code { R.Precedence.code < 256 }
        ensures round_trip { RoundTrip }
        ensures notes { NotesLeftOut }
    {
        write_roster(R::its_code(), &self.roster, out)
    }

    // Writes the plan file under the rule's code at the start of the space and answers its length; or refusal 10.
    pub fn write(&self, out: &mut [u8]) -> Result<usize, Refusal>
        ensures answer { result ≡ write_answer self.now.roster.placements.items out.old }
        ensures bytes { out.new ≡ write_bytes R.Precedence.code self.now.roster.machines self.now.roster.placements.items out.old }
        ensures taken_back { TakenBack (R.Precedence.before self.now.rule) R.Precedence.code self.now.roster.machines self.now.roster.placements.items result out.new }
        ensures round_trip { RoundTrip }
        ensures notes { NotesLeftOut }
    {
        self.write_file(out)
    }
}
