ghost use Rattle.std.specs.Prelude.{◌≡◌, ◌&&◌, IfSome, is_some, map, true};
ghost use Rattle.rack.specs.Sets.{passive_late};
ghost use Rattle.rack.specs.Test.{all_below};
ghost use Rattle.plantest.specs.Sweep.{pair_passes, quiet_passes};
ghost use Rattle.first_fit.specs.Beside.{KnownYet, any_of, asked, asks, changed, machine_beside, pair_beside, touched_passes};

use crate::latenesses::Figures;
use crate::search::Search;
use plantest::{Workspace, pair_passes, quiet_figure};
use precedence::Precedence;
use rack::{Placement, Status};
use roster::Roster;

// Whether the job has a copy in the quiet set of machine g.
fn is_changed(x: &Placement, g: u8) -> bool
    ensures { result ≡ changed x.now g }
{
    x.primary == g || (x.standby == g && x.status == Status::Active)
}

// Whether g is tested for the loss of f on this placement's account: its standby is on g, its primary on f, and
// the quiet set of g has changed, or that of f has and the standby is passive.
fn asks_for(p: &Placement, here: bool, there: bool, g: u8, f: u8) -> bool
    ensures { result ≡ asks here there g f p.now }
{
    p.standby == g && p.primary == f && (here || (there && p.status == Status::Passive))
}

fn any_asks(placements: &[Placement], here: bool, there: bool, g: u8, f: u8) -> bool
    ensures { result ≡ any_of (asks here there g f) placements.now }
{
    placements.iter().any(|p| asks_for(p, here, there, g, f))
}

// Whether g is tested for the loss of f beside the job.
fn is_asked(placements: &[Placement], x: &Placement, g: u8, f: u8) -> bool
    ensures { result ≡ asked x.now placements.now g f }
{
    let here = is_changed(x, g);
    let there = is_changed(x, f);
    if !here && !there {
        return false;
    }
    any_asks(placements, here, there, g, f)
}

// The plan of a roster with a further job x in it, and how late its passive standbys are. The plan test has a struct of
// that kind for any list of placements; this one lends its roster to the test of a pair, which takes one.
#[derive(Drop)]
struct Beside<'a, R: Precedence> {
    rule: &'a R,
    roster: &'a Roster,
    lates: &'a [u32],
    x: &'a Placement,
    ghost right: { lates.now ≡ map (passive_late (R.Precedence.before rule.now) roster.now.placements.items) roster.now.placements.items },
}

impl<R: Precedence> Beside<'_, R> {
    // Whether every copy in the loss set of g when f stops has its figure there.
    fn pair_fits(&self, space: &mut Workspace, g: u8, f: u8) -> bool
        ensures { result ≡ pair_passes (R.Precedence.before self.now.rule.now) self.now.roster.now.placements.items g f }
    {
        pair_passes(self.rule, self.roster, self.lates, g, f, space)
    }

    // The same where it is asked for beside the job, whose own standby's pair has been tested.
    fn pair_beside(&self, space: &mut Workspace, g: u8, f: u8) -> bool
        requires { pair_passes (R.Precedence.before self.now.rule.now) self.now.roster.now.placements.items self.now.x.now.standby self.now.x.now.primary ≡ true }
        ensures { result ≡ pair_beside (R.Precedence.before self.now.rule.now) self.now.x.now self.now.roster.now.placements.items g f }
    {
        f == g
            || (g == self.x.standby && f == self.x.primary)
            || !is_asked(self.roster.placements(), self.x, g, f)
            || self.pair_fits(space, g, f)
    }

    // The same whichever machine stops.
    fn machine_beside(&self, space: &mut Workspace, g: u8) -> bool
        requires { pair_passes (R.Precedence.before self.now.rule.now) self.now.roster.now.placements.items self.now.x.now.standby self.now.x.now.primary ≡ true }
        ensures { result ≡ machine_beside (R.Precedence.before self.now.rule.now) self.now.roster.now.machines self.now.x.now self.now.roster.now.placements.items g }
    {
        // No `all`, here and below: as in the plan test, the closure would change `space`, and the goal of `all` stays
        // open.
        for f in 0..self.roster.machines() {
            if !self.pair_beside(space, g, f) {
                return false;
            }
        }
        true
    }

    // The same of each machine. The job's own standby's pair comes first, since that is where most choices fail.
    fn pairs_pass(&self, space: &mut Workspace) -> bool
        ensures { result ≡ (pair_passes (R.Precedence.before self.now.rule.now) self.now.roster.now.placements.items self.now.x.now.standby self.now.x.now.primary && all_below self.now.roster.now.machines (machine_beside (R.Precedence.before self.now.rule.now) self.now.roster.now.machines self.now.x.now self.now.roster.now.placements.items)) }
    {
        if !self.pair_fits(space, self.x.standby, self.x.primary) {
            return false;
        }
        for g in 0..self.roster.machines() {
            if !self.machine_beside(space, g) {
                return false;
            }
        }
        true
    }
}

impl<R: Precedence> Search<'_, R> {
    // If every primary has its quiet figure beside the job, these: the latenesses of the passive standbys. What is
    // known of a primary stands unless its machine has changed; where nothing is known yet, each is asked for.
    fn quiet_beside<'a>(
        &self,
        roster: &Roster,
        space: &mut Workspace,
        lates: &'a mut Figures,
        x: &Placement,
    ) -> Option<&'a [u32]>
        requires { KnownYet (R.Precedence.before self.now.rule.now) x.now roster.now.placements.items self.now.known.now }
        ensures test { is_some result ≡ quiet_passes (R.Precedence.before self.now.rule.now) roster.now.placements.items }
        ensures figures { IfSome result (λ l. l.now ≡ map (passive_late (R.Precedence.before self.now.rule.now) roster.now.placements.items) roster.now.placements.items) }
    {
        lates.clear();
        // No `extend`: its closure would change `space`, and it may ask for memory.
        for (i, p) in roster.placements().iter().enumerate() {
            let known = if is_changed(x, p.primary) {
                None
            } else {
                self.known.get(i)
            };
            let late = match known {
                Some(figure) => *figure,
                None => quiet_figure(self.rule, roster, p, space)?,
            };
            lates.push(late);
        }
        Some(lates.as_slice())
    }

    // Whether all that the job can change in the plan that has it passes.
    pub(crate) fn passes_beside(
        &self,
        roster: &Roster,
        space: &mut Workspace,
        lates: &mut Figures,
        x: &Placement,
    ) -> bool
        requires { KnownYet (R.Precedence.before self.now.rule.now) x.now roster.now.placements.items self.now.known.now }
        ensures { result ≡ touched_passes (R.Precedence.before self.now.rule.now) roster.now.machines x.now roster.now.placements.items }
    {
        let Some(lates) = self.quiet_beside(roster, space, lates, x) else {
            return false;
        };
        let beside = Beside {
            rule: self.rule,
            roster,
            lates,
            x,
        };
        beside.pairs_pass(space)
    }
}
