ghost use Rattle.std.specs.Prelude.{◌≡◌};
ghost use Rattle.rack.specs.Sets.{passive_late, quiet_figure};

use crate::gather::primary_copy;
use crate::tested::Tested;
use crate::workspace::Copies;
use figures::figure;
use precedence::Precedence;
use rack::Placement;

impl<'a, R: Precedence> Tested<'a, R> {
    // The job's quiet figure.
    pub(crate) fn quiet_of(&self, p: &Placement, copies: &mut Copies) -> Option<u32>
        ensures { result ≡ quiet_figure (R.Precedence.before self.now.rule.now) self.now.placements.now p.now }
    {
        self.gather_quiet(p.primary, copies);
        figure(self.rule, copies.as_slice(), &primary_copy(p))
    }

    // How late the job's standby is while it is passive.
    pub(crate) fn late_of(&self, p: &Placement, copies: &mut Copies) -> u32
        ensures { result ≡ passive_late (R.Precedence.before self.now.rule.now) self.now.placements.now p.now }
    {
        self.quiet_of(p, copies).unwrap_or(p.terms.deadline())
    }
}
