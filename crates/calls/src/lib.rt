// A list of calls carried out on one plan, one after the other, and what a plan so made promises.
// Knows the planner's calls by their contracts.
#![tactic(auto)]

mod answer;
mod call;
mod carry;

pub use answer::{Answer, Outcome, refusal_number};
pub use call::Call;
pub use carry::carry_out;
