ghost use Rattle.std.specs.Prelude.{◌≡◌, if◌then◌else◌};
ghost use Rattle.figures.specs.declared.copies.Role.TheVariants.{Standby};
ghost use Rattle.rack.specs.Plan.{active};
ghost use Rattle.rack.specs.Sets.{copy_of};
ghost use Rattle.plantest.specs.Parts.{loss_with};
ghost use Rattle.plantest.specs.Sweep.{all_fit, copies_fit, lost_passes, machine_passes, pair_passes};

use crate::gather::{primary_copy, standby_copy};
use crate::known::Known;
use crate::tested::Tested;
use crate::workspace::Copies;
use figures::{JobCopy, figure};
use precedence::Precedence;
use rack::Placement;

// Whether the job's copies that stand in this loss set have figures there.
fn fits_in<R: Precedence>(
    rule: &R,
    set: &[JobCopy],
    p: &Placement,
    late: &u32,
    g: u8,
    f: u8,
) -> bool
    ensures { result ≡ copies_fit (R.Precedence.before rule.now) set.now (copy_of Standby p.now (if active p.now.status then p.now.terms.lateness else late.now)) g f p.now }
{
    if p.primary == g && figure(rule, set, &primary_copy(p)).is_none() {
        return false;
    }
    if p.standby == g && p.primary == f && figure(rule, set, &standby_copy(p, *late)).is_none() {
        return false;
    }
    true
}

// `g` and `f` stand side by side throughout: two machine numbers, and a struct of the two would be taken apart at once.
impl<'a, R: Precedence> Tested<'a, R> {
    // Whether every copy in the loss set of g when f stops has its figure there, with each placement's passive
    // lateness given.
    pub(crate) fn pair_fits_with(&self, lates: &[u32], g: u8, f: u8, copies: &mut Copies) -> bool
        ensures { result ≡ all_fit (R.Precedence.before self.now.rule.now) (loss_with lates.now g f self.now.placements.now) g f lates.now self.now.placements.now }
    {
        self.gather_loss(lates, g, f, copies);
        let set = copies.as_slice();
        self.placements
            .iter()
            .zip(lates)
            .all(|(p, late)| fits_in(self.rule, set, p, late, g, f))
    }
}

impl<'a, R: Precedence> Known<'a, R> {
    // Whether every copy in the loss set of g when f stops has its figure there.
    fn pair_fits(&self, g: u8, f: u8, copies: &mut Copies) -> bool
        ensures { result ≡ pair_passes (R.Precedence.before self.now.tested.now.rule.now) self.now.tested.now.placements.now g f }
    {
        self.tested.pair_fits_with(self.lates, g, f, copies)
    }

    // The same, but that g itself is none of the machines that may stop.
    fn lost_fits(&self, g: u8, f: u8, copies: &mut Copies) -> bool
        ensures { result ≡ lost_passes (R.Precedence.before self.now.tested.now.rule.now) self.now.tested.now.placements.now g f }
    {
        f == g || self.pair_fits(g, f, copies)
    }

    // Whether every copy on g has its figures, whichever other machine stops.
    pub(crate) fn machine_fits(&self, g: u8, copies: &mut Copies) -> bool
        ensures { result ≡ machine_passes (R.Precedence.before self.now.tested.now.rule.now) self.now.tested.now.machines self.now.tested.now.placements.now g }
    {
        // `all` left its goal open: the closure would change `copies`, and std's lemmas ask that no call changes it.
        for f in 0..self.tested.machines {
            if !self.lost_fits(g, f, copies) {
                return false;
            }
        }
        true
    }
}
