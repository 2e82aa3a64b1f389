ghost use Rattle.std.specs.Prelude.{◌≡◌, ◌==◌, ℕ, ◌≤◌, nat_lt, true, length, position, MatchOption};
ghost use Rattle.std.specs.List.{insert};
ghost use Rattle.rack.specs.Plan.{number};
ghost use Rattle.roster.specs.Changes.{Absent, Orderly, Stands, addable, with_job, without};
ghost use Rattle.roster.specs.Rising.{placed};

use rack::Placement;

// The first with this number, on any list: of at most 96 a search by halves would gain nothing.
fn first_of(placements: &[Placement], wanted: u32) -> Option<usize>
    ensures { result ≡ position (λ q. number q == wanted) placements.now }
{
    placements.iter().position(|p| p.terms.number() == wanted)
}

// Where the job with this number stands.
#[tactic(auto, using(crate::proofs::Searches::place_is))]
pub(crate) fn place_of(placements: &[Placement], number: u32) -> Option<usize>
    ensures cases { MatchOption result (Absent number placements.now) (λ i. Stands number placements.now i) }
    ensures keeps { (m : ℕ) → Orderly m placements.now → Orderly m (without number placements.now) }
{
    first_of(placements, number)
}

// Where the first of a larger number stands. By `position` and no `partition_point`: `place_for` promises of any list.
fn first_above(placements: &[Placement], p: &Placement) -> Option<usize>
    ensures { result ≡ position (λ q. nat_lt (number p.now) (number q)) placements.now }
{
    placements
        .iter()
        .position(|other| p.terms.number() < other.terms.number())
}

// Where a job is to stand: before the first of a larger number.
#[tactic(auto, using(crate::proofs::Searches::placed_before_larger))]
pub fn place_for(placements: &[Placement], p: &Placement) -> usize
    ensures within { result ≤ length placements.now }
    ensures there { insert placements.now result p.now ≡ with_job p.now placements.now }
    ensures keeps { (m : ℕ) → addable m placements.now p.now ≡ true → Orderly m placements.now → Orderly m (with_job p.now placements.now) }
{
    first_above(placements, p).unwrap_or(placements.len())
}

// Whether the two machines differ and are of the rack.
pub(crate) fn is_placed(machines: u8, p: &Placement) -> bool
    ensures { result ≡ placed machines p.now }
{
    p.primary < machines && p.standby < machines && p.primary != p.standby
}
