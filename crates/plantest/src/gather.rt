ghost use Rattle.std.specs.Prelude.{◌≡◌, if◌then◌else◌};
ghost use Rattle.std.specs.Option.{option_to_list};
ghost use Rattle.figures.specs.declared.copies.Role.TheVariants.{Primary, Standby};
ghost use Rattle.rack.specs.Plan.{active};
ghost use Rattle.rack.specs.Sets.{copy_of, quiet, quiet_part};
ghost use Rattle.plantest.specs.Parts.{loss_with, passive_part};

use crate::tested::Tested;
use crate::workspace::Copies;
use figures::{JobCopy, Role};
use precedence::Precedence;
use rack::{Placement, Status};

// The job's copy in this role, so late.
fn copy_of(role: Role, p: &Placement, lateness: u32) -> JobCopy
    ensures { result ≡ copy_of role p.now lateness }
{
    JobCopy {
        terms: p.terms,
        role,
        lateness,
    }
}

// The job's primary copy.
pub(crate) fn primary_copy(p: &Placement) -> JobCopy
    ensures { result ≡ copy_of Primary p.now p.now.terms.lateness }
{
    copy_of(Role::Primary, p, p.terms.lateness())
}

// The job's standby copy, with its lateness where it is passive.
pub(crate) fn standby_copy(p: &Placement, late: u32) -> JobCopy
    ensures { result ≡ copy_of Standby p.now (if active p.now.status then p.now.terms.lateness else late) }
{
    let lateness = match p.status {
        Status::Passive => late,
        Status::Active => p.terms.lateness(),
    };
    copy_of(Role::Standby, p, lateness)
}

// The job's copy in the quiet set of machine g, if it has one there.
fn quiet_copy(p: &Placement, g: u8) -> Option<JobCopy>
    ensures { option_to_list result ≡ quiet_part g p.now }
{
    match p.status {
        _ if p.primary == g => Some(primary_copy(p)),
        Status::Active if p.standby == g => Some(copy_of(Role::Standby, p, p.terms.lateness())),
        _ => None,
    }
}

// The job's passive standby, if it stands on g and its primary on f.
fn passive_copy(p: &Placement, late: u32, g: u8, f: u8) -> Option<JobCopy>
    ensures { option_to_list result ≡ passive_part late g f p.now }
{
    match p.status {
        // a guard here in place of the `if` made the full test slower
        Status::Passive => {
            if p.standby == g && p.primary == f {
                Some(copy_of(Role::Standby, p, late))
            } else {
                None
            }
        }
        Status::Active => None,
    }
}

impl<'a, R: Precedence> Tested<'a, R> {
    // The quiet set of machine g.
    pub(crate) fn gather_quiet(&self, g: u8, copies: &mut Copies)
        ensures { copies.new.held.items ≡ quiet g self.now.placements.now }
    {
        copies.clear();
        // No `extend`, here and below: it may ask for memory.
        for p in self.placements {
            copies.add(quiet_copy(p, g));
        }
    }

    // The loss set of machine g when f stops, with each placement's passive lateness given.
    pub(crate) fn gather_loss(&self, lates: &[u32], g: u8, f: u8, copies: &mut Copies)
        ensures { copies.new.held.items ≡ loss_with lates.now g f self.now.placements.now }
    {
        copies.clear();
        for (p, late) in self.placements.iter().zip(lates) {
            copies.add(quiet_copy(p, g));
            copies.add(passive_copy(p, *late, g, f));
        }
    }
}
