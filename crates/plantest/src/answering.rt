ghost use Rattle.std.specs.Prelude.{◌≡◌};
ghost use Rattle.rack.specs.Test.{standby_figure};
ghost use Rattle.plantest.specs.JobFigures.{largest_lost, lost_shown, shown, three_figures};

use crate::gather::{primary_copy, standby_copy};
use crate::known::Known;
use crate::tested::Tested;
use crate::workspace::{Copies, Workspace};
use figures::figure;
use precedence::Precedence;
use rack::Placement;
use roster::Roster;

impl<'a, R: Precedence> Known<'a, R> {
    // The figure of the job's primary when f stops, 0 for its own machine.
    fn lost_figure(&self, p: &Placement, f: u8, copies: &mut Copies) -> u32
        ensures { result ≡ lost_shown (R.Precedence.before self.now.tested.now.rule.now) self.now.tested.now.placements.now p.now f }
    {
        if f == p.primary {
            return 0;
        }
        self.tested.gather_loss(self.lates, p.primary, f, copies);
        figure(self.tested.rule, copies.as_slice(), &primary_copy(p)).unwrap_or(0)
    }

    // The largest of them.
    fn largest_figure(&self, p: &Placement, copies: &mut Copies) -> u32
        ensures { result ≡ largest_lost (R.Precedence.before self.now.tested.now.rule.now) self.now.tested.now.placements.now p.now self.now.tested.now.machines }
    {
        // No `map` and `max`: the closure would change `copies`, as in `machine_fits`.
        let mut largest = 0u32;
        for f in 0..self.tested.machines {
            largest = largest.max(self.lost_figure(p, f, copies));
        }
        largest
    }

    // The figure of the job's standby, 0 where there is none.
    fn standby_of(&self, p: &Placement, copies: &mut Copies) -> u32
        ensures { result ≡ shown (standby_figure (R.Precedence.before self.now.tested.now.rule.now) self.now.tested.now.placements.now p.now) }
    {
        let late = self.tested.late_of(p, copies);
        self.tested
            .gather_loss(self.lates, p.standby, p.primary, copies);
        figure(self.tested.rule, copies.as_slice(), &standby_copy(p, late)).unwrap_or(0)
    }
}

// The three figures of a job in the plan of a roster: its quiet figure, the largest figure of its primary over
// the loss sets, and the figure of its standby.
pub fn job_figures<R: Precedence>(
    rule: &R,
    roster: &Roster,
    p: &Placement,
    space: &mut Workspace,
) -> (u32, u32, u32)
    ensures { result ≡ three_figures (R.Precedence.before rule.now) roster.now.machines roster.now.placements.items p.now }
{
    let Workspace { copies, lates } = space;
    let plan = Tested::of(rule, roster);
    let quiet = plan.quiet_of(p, copies).unwrap_or(0);
    let known = Known::of(&plan, copies, lates);
    (
        quiet,
        known.largest_figure(p, copies),
        known.standby_of(p, copies),
    )
}
