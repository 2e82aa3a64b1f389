ghost use Rattle.std.specs.Prelude.{refl};
ghost use Rattle.precedence.specs.Deadlines.{deadline_before};

use crate::keyed::Keyed;
use terms::Terms;

// The smaller deadline goes first, then the smaller number.
#[derive(Clone, Copy, PartialEq, Eq, Debug)]
pub struct Deadline;

impl Keyed for Deadline {
    const CODE: u8 = 1;

    ghost CODE = { 1 };

    ghost key = { λ s t. t.deadline };

    ghost before = { deadline_before };

    ghost by_key = { λ s a b. refl };

    fn key(&self, terms: &Terms) -> u64 {
        u64::from(terms.deadline())
    }
}
