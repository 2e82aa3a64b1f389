ghost use Rattle.std.specs.Prelude.{◌≡◌, ◌<◌, ◌≤◌, ◌==◌, count_by};
ghost use Rattle.std.specs.Bool.{then_some};
ghost use Rattle.std.specs.List.{find, range_with_len};
ghost use Rattle.orders.specs.Lightest.{Sorted, lighter, lightest_turns};
ghost use Rattle.orders.specs.Turns.{turn_of};
ghost use Rattle.orders.specs.ByLoad.{each_once};

use crate::order::{SearchOrder, is_turn};

// The machines by load, the smaller first; at equal loads by number.
#[derive(Clone, Copy, PartialEq, Eq, Debug)]
pub struct Lightest;

// Whether machine `a` comes before machine `b`.
fn comes_before(loads: &[u64; 16], a: u8, b: u8) -> bool
    requires { (a < 16) × (b < 16) }
    ensures { result ≡ lighter loads.now a b }
{
    (loads[a as usize], a) < (loads[b as usize], b)
}

// How many machines below the count come before machine `g`.
#[tactic(auto, using(crate::proofs::Places::rank_by_count))]
fn rank_of(count: u8, loads: &[u64; 16], g: u8) -> usize
    requires { (count ≤ 16) × (g < count) }
    ensures { result ≡ count_by (λ h. lighter loads.now h g) (range_with_len 0 count) }
{
    // loops, here and below: by `filter`, `count` and `find` a turn took more than twice as long
    let mut before = 0;
    for h in 0..count {
        if comes_before(loads, h, g) {
            before += 1;
        }
    }
    before
}

// Machine `g`, if as many come before it as stand before place `k`.
fn machine_if(count: u8, loads: &[u64; 16], g: u8, k: u8) -> Option<u8>
    requires { (count ≤ 16) × (g < count) }
    ensures { result ≡ then_some (count_by (λ h. lighter loads.now h g) (range_with_len 0 count) == k) g }
{
    (rank_of(count, loads, g) == usize::from(k)).then_some(g)
}

// The machine at place `k` below the count: the first of which that is so.
fn machine_at(count: u8, loads: &[u64; 16], k: u8) -> Option<u8>
    requires { count ≤ 16 }
    ensures { result ≡ find (λ g. count_by (λ h. lighter loads.now h g) (range_with_len 0 count) == k) (range_with_len 0 count) }
{
    for g in 0..count {
        let machine = machine_if(count, loads, g, k);
        if machine.is_some() {
            return machine;
        }
    }
    None
}

impl SearchOrder for Lightest {
    ghost turns = { lightest_turns };

    ghost permutes = { λ s count loads low high sixteen. each_once loads count };

    fn turn(&self, count: u8, loads: &[u64; 16], k: u8) -> u8
        ensures tells { result ≡ turn_of (lightest_turns self.now count loads.now) count k }
        ensures sorted { Sorted loads.now count (lightest_turns self.now count loads.now) }
    {
        let machine = if is_turn(count, k) {
            machine_at(count, loads, k)
        } else {
            None
        };
        // 255 is the number that the search-order interface gives for no turn
        machine.unwrap_or(255)
    }
}
