// Who goes before whom: the precedence trait with its laws, and the three supplied rules.
// Knows jobs by their terms alone. A new rule is one more impl, of `Keyed` where it goes by a key; nothing else changes.
#![tactic(auto)]

mod deadline;
mod keyed;
mod period;
mod precedence;
mod ranking;

pub use deadline::Deadline;
pub use keyed::Keyed;
pub use period::Period;
pub use precedence::Precedence;
pub use ranking::Ranking;
