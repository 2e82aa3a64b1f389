ghost use Rattle.std.specs.Prelude.{◌≡◌, Some};
ghost use Rattle.planner.specs.Answers.{admitted, admitted_terms};

use roster::Roster;
use terms::{Draft, Refusal, Terms};

// The terms, unless their number is planned or 96 jobs are.
fn admit_terms(roster: &Roster, terms: Terms) -> Result<Terms, Refusal>
    ensures { result ≡ admitted_terms roster.now.placements.items (Some terms) }
{
    if roster.find(terms.number()).is_some() {
        return Err(Refusal::Known);
    }
    if roster.placements().len() < 96 {
        return Ok(terms);
    }
    Err(Refusal::Full)
}

// The draft as terms that may be planned, or the refusal.
pub(crate) fn admit(roster: &Roster, draft: Draft) -> Result<Terms, Refusal>
    ensures { result ≡ admitted roster.now.placements.items draft }
{
    let terms = Terms::new(draft)?;
    admit_terms(roster, terms)
}
