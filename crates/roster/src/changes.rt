ghost use Rattle.std.specs.Prelude.{◌≡◌, ◌&&◌, [], if◌then◌else◌, nat_le};
ghost use Rattle.roster.specs.Changes.{addable, find, with_job, without};

use crate::places::{is_placed, place_for, place_of};
use crate::roster::Roster;
use rack::Placement;

impl Roster {
    // Begins again with so many machines and no job, if they are 2 to 16.
    pub fn reset(&mut self, machines: u32) -> bool
        ensures test { result ≡ (nat_le 2 machines && nat_le machines 16) }
        ensures machines { self.new.machines ≡ (if result then machines else self.old.machines) }
        ensures items { self.new.placements.items ≡ (if result then [] else self.old.placements.items) }
    {
        if !(2..=16).contains(&machines) {
            return false;
        }
        self.placements.clear();
        self.machines = machines as u8;
        true
    }

    // Whether a job may be put in.
    fn takes(&self, p: &Placement) -> bool
        ensures { result ≡ addable self.now.machines self.now.placements.items p.now }
    {
        self.find(p.terms.number()).is_none()
            && self.placements.len() < 96
            && is_placed(self.machines, p)
    }

    // Puts a job in at its place, if it may be.
    pub fn insert(&mut self, p: Placement) -> bool
        ensures test { result ≡ addable self.old.machines self.old.placements.items p }
        ensures items { self.new.placements.items ≡ (if result then with_job p self.old.placements.items else self.old.placements.items) }
        ensures machines { self.new.machines ≡ self.old.machines }
    {
        if !self.takes(&p) {
            return false;
        }
        let i = place_for(self.placements(), &p);
        self.placements.insert(i, p).is_ok()
    }

    // Takes out the job with this number.
    pub fn remove(&mut self, number: u32) -> Option<Placement>
        ensures found { result ≡ find number self.old.placements.items }
        ensures items { self.new.placements.items ≡ without number self.old.placements.items }
        ensures machines { self.new.machines ≡ self.old.machines }
    {
        let i = place_of(self.placements(), number)?;
        Some(self.placements.remove(i))
    }
}
