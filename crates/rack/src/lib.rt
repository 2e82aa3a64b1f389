// A rack of machines: who stands where, what a day is, what the machines do on it, and when a plan passes.
// Mostly meanings (specs/) and the laws that tie the plan test to days (proofs/).
#![tactic(auto)]

mod placement;
mod status;

pub use placement::{Placement, Status};
pub use status::UnknownStatus;
