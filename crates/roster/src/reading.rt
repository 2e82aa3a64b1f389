ghost use Rattle.std.specs.Prelude.{◌≡◌};
ghost use Rattle.roster.specs.Changes.{find};

use crate::places::place_of;
use crate::roster::Roster;
use rack::Placement;

impl Roster {
    pub fn machines(&self) -> u8
        ensures { result ≡ self.now.machines }
    {
        self.machines
    }

    // The placements, in rising job number.
    pub fn placements(&self) -> &[Placement]
        ensures { result.now ≡ self.now.placements.items }
    {
        self.placements.as_slice()
    }

    // The placement of the job with this number.
    pub fn find(&self, number: u32) -> Option<Placement>
        ensures { result ≡ find number self.now.placements.items }
    {
        let i = place_of(self.placements(), number)?;
        Some(self.placements[i])
    }
}
