// What a job is: the limits on its terms, terms that keep them by their type, and the
// product's refusals by number. Knows nothing of machines, plans or precedence.
#![tactic(auto)]

mod draft;
mod making;
mod refusal;
mod terms;

pub use draft::Draft;
pub use refusal::Refusal;
pub use terms::Terms;
