// The planner: a plan with its rule and its search order, and the calls that change it or answer from it.
// Knows the plan test, the roster, the search orders and plan files by their contracts.
#![tactic(auto)]

mod admit;
mod adopting;
mod figuring;
mod open;
mod pin;
mod place;
mod plan;
mod turns;
mod withdraw;
mod writing;

pub use plan::Plan;
