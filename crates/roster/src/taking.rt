ghost use Rattle.std.specs.Prelude.{◌≡◌, ◌≤◌, Bool, true, if◌then◌else◌, vec_len, vec_capacity};
ghost use Rattle.roster.specs.Rising.{all_placed, rising, rising_from};
ghost use Rattle.roster.specs.Taking.{holdable};

use crate::places::is_placed;
use crate::roster::Roster;
use rack::Placement;
use std::mem;

// Whether every job's machines differ and are of the rack.
pub fn all_placed_in(machines: u8, placements: &[Placement]) -> bool
    ensures { result ≡ all_placed machines placements.now }
{
    placements.iter().all(|p| is_placed(machines, p))
}

// Whether the job numbers rise.
fn rises(placements: &[Placement]) -> bool
    ensures { result ≡ rising placements.now }
{
    placements.is_sorted_by(|p, next| p.terms.number() < next.terms.number())
}

// Whether a roster may hold these placements on so many machines.
fn may_hold(machines: u8, placements: &[Placement]) -> bool
    ensures { result ≡ holdable machines placements.now }
{
    (2..=16).contains(&machines)
        && placements.len() <= 96
        && rises(placements)
        && all_placed_in(machines, placements)
}

impl Roster {
    // Takes over a machine count and placements, if they are a plan in rising number and have memory for 96.
    // What it held before is then in `placements`; else both stay as they were, so the `bool` has no value beside it.
    pub fn take_over(&mut self, machines: u8, placements: &mut Vec<Placement>) -> bool
        ensures test { 96 ≤ vec_capacity placements.old → result ≡ holdable machines placements.old.items }
        ensures machines { self.new.machines ≡ (if result then machines else self.old.machines) }
        ensures items { self.new.placements.items ≡ (if result then placements.old.items else self.old.placements.items) }
        ensures given { placements.new.items ≡ (if result then self.old.placements.items else placements.old.items) }
        ensures roomy { 96 ≤ vec_capacity placements.old → 96 ≤ vec_capacity placements.new }
    {
        if placements.capacity() < 96 || !may_hold(machines, placements.as_slice()) {
            return false;
        }
        mem::swap(&mut self.placements, placements);
        self.machines = machines;
        true
    }

    // Holds what another roster holds. Both have memory for 96 placements, so that it cannot fail for want of it.
    pub fn copy_from(&mut self, other: &Roster)
        ensures machines { self.new.machines ≡ other.now.machines }
        ensures items { self.new.placements.items ≡ other.now.placements.items }
    {
        self.placements.clear();
        let _ = self.placements.extend_from_slice(other.placements());
        self.machines = other.machines;
    }
}
