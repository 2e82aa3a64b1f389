// In which order machines are tried: the search order trait with its law, and the two supplied orders.
// Knows machine counts and loads as numbers. Knows nothing of jobs, plans or rules.
#![tactic(auto)]

mod ascending;
mod lightest;
mod order;

pub use ascending::Ascending;
pub use lightest::Lightest;
pub use order::SearchOrder;
