ghost use Rattle.std.specs.Prelude.{◌≡◌};
ghost use Rattle.std.specs.Bool.{then_some};
ghost use Rattle.orders.specs.Turns.{is_turn};
ghost use Rattle.orders.specs.Ascending.{ascending_turns};
ghost use Rattle.orders.specs.Counting.{each_once};

use crate::order::{SearchOrder, is_turn};

// The machines by number.
#[derive(Clone, Copy, PartialEq, Eq, Debug)]
pub struct Ascending;

// The machine at place `k` of 0, 1, .., `count` - 1, where there is such a turn.
fn machine_at(count: u8, k: u8) -> Option<u8>
    ensures { result ≡ then_some (is_turn count k) k }
{
    is_turn(count, k).then_some(k)
}

impl SearchOrder for Ascending {
    ghost turns = { ascending_turns };

    ghost permutes = { λ s count loads low high sixteen. each_once count };

    fn turn(&self, count: u8, loads: &[u64; 16], k: u8) -> u8 {
        // 255 is the number that the search-order interface gives for no turn
        machine_at(count, k).unwrap_or(255)
    }
}
