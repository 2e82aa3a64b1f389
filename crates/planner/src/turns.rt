ghost use Rattle.std.specs.Prelude.{◌≡◌, ◌<◌, ◌≤◌, take};
ghost use Rattle.orders.specs.Turns.{turn_of};

use orders::SearchOrder;
use std::array;

// The machines in their turn, each below the count once. Places from the count on hold 255.
// An array and no Vec, since a call must not fail for want of memory.
pub(crate) fn turns_of<O: SearchOrder>(order: &O, machines: u8, loads: &[u64; 16]) -> [u8; 16]
    requires { (2 ≤ machines) × (machines ≤ 16) }
    ensures { take machines result ≡ O.SearchOrder.turns order.now machines loads.now }
{
    array::from_fn(
        |k|
            requires { k < 16 }
            ensures { result ≡ turn_of (O.SearchOrder.turns order.entry.now machines loads.entry.now) machines k }
        { order.turn(machines, loads, k as u8) },
    )
}
