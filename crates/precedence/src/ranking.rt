ghost use Rattle.std.specs.Prelude.{◌≡◌, IfOk, refl};
ghost use Rattle.precedence.specs.Rankings.{index, place, ranking_before};

use crate::keyed::Keyed;
use std::alloc::{AllocError, Global};
use terms::Terms;

// The jobs of a list go first, by first mention among its first 32 entries; then the others, by number.
#[derive(Drop)]
pub struct Ranking {
    list: Vec<u32>,
}

impl Ranking {
    // The ranking by a copy of this list, fixed from here on.
    pub fn new(heap: Global, list: &[u32]) -> Result<Ranking, AllocError>
        ensures { IfOk result (λ s. s.list.items ≡ list.now) }
    {
        let list = Vec::from_slice(heap, list)?;
        Ok(Ranking { list })
    }
}

// Where the number is first mentioned; the list's length where it is not.
fn index_of(list: &[u32], number: u32) -> usize
    ensures { result ≡ index list.now number }
{
    let mention = list.iter().position(|entry| *entry == number);
    mention.unwrap_or(list.len())
}

impl Keyed for Ranking {
    const CODE: u8 = 3;

    ghost CODE = { 3 };

    ghost key = { λ s t. place s.list.items t.number };

    ghost before = { ranking_before };

    ghost by_key = { λ s a b. refl };

    // By first mention among the entries that count: the first 32.
    #[tactic(auto, using(crate::proofs::Mentions::front))]
    fn key(&self, terms: &Terms) -> u64 {
        let counted = &self.list[..self.list.len().min(32)];
        index_of(counted, terms.number()) as u64
    }
}
