ghost use Rattle.std.specs.Prelude.{◌≡◌, is_ok, MatchResult};
ghost use Rattle.terms.specs.Limits.{Lawful, lawful};
ghost use Rattle.terms.specs.Making.{Of};
ghost use Rattle.terms.specs.declared.refusal.Refusal.TheVariants.{Limits};

use crate::draft::Draft;
use crate::refusal::Refusal;
use crate::terms::Terms;

impl Terms {
    // The draft's numbers as terms, or refusal 2 where one of them breaks a limit.
    pub fn new(draft: Draft) -> Result<Terms, Refusal>
        ensures test { is_ok result ≡ lawful draft }
        ensures cases { MatchResult result (λ t. Lawful draft × Of draft t) (λ e. (e ≡ Limits) × (Lawful draft → ⊥)) }
    {
        let Draft {
            number,
            period,
            deadline,
            run,
            standby,
            lateness,
        } = draft;
        if number < 1 || number > 65535 {
            return Err(Refusal::Limits);
        }
        if run < 1 || standby < 1 || period > 1000000 || deadline > period {
            return Err(Refusal::Limits);
        }
        if lateness > deadline || run > deadline - lateness || standby > deadline - lateness {
            return Err(Refusal::Limits);
        }
        Ok(Terms {
            number,
            period,
            deadline,
            run,
            standby,
            lateness,
        })
    }
}
