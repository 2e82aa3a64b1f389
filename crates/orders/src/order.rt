ghost use Rattle.std.specs.Prelude.{◌≡◌, ℕ, ◌≤◌, List, length};
ghost use Rattle.orders.specs.Turns.{EachOnce, is_turn, turn_of};

// A search order. What it means is the list `turns`; generic code may use of it only the law and that
// asking tells the list's places exactly. Its three numbers are given by this interface: a struct of them
// would be made and taken apart in each call.
pub trait SearchOrder {
    // For a machine count and the sixteen loads: the machines, in their turn.
    ghost turns: { Self → ℕ → List ℕ → List ℕ };

    // The machine whose turn is `k`, counted from 0; 255 where there is no such turn.
    fn turn(&self, count: u8, loads: &[u64; 16], k: u8) -> u8
        ensures { result ≡ turn_of (turns self.now count loads.now) count k };

    ghost permutes: { (s : Self) (count : ℕ) (loads : List ℕ) → 2 ≤ count → count ≤ 16 → length loads ≡ 16 → EachOnce count (turns s count loads) };
}

// Whether `k` is a turn below a count of 2 to 16.
pub fn is_turn(count: u8, k: u8) -> bool
    ensures { result ≡ is_turn count k }
{
    (2..=16).contains(&count) && k < count
}
