ghost use Rattle.std.specs.Prelude.{refl};
ghost use Rattle.precedence.specs.Periods.{period_before};

use crate::keyed::Keyed;
use terms::Terms;

// The smaller period goes first, then the smaller number.
#[derive(Clone, Copy, PartialEq, Eq, Debug)]
pub struct Period;

impl Keyed for Period {
    const CODE: u8 = 2;

    ghost CODE = { 2 };

    ghost key = { λ s t. t.period };

    ghost before = { period_before };

    ghost by_key = { λ s a b. refl };

    fn key(&self, terms: &Terms) -> u64 {
        u64::from(terms.period())
    }
}
