// The first choice of machines and status for a job with which the plan passes, found by testing only what a
// choice can change. Knows rosters and the plan test by their contracts; knows no search order and no file.
#![tactic(auto)]

mod beside;
mod choices;
mod knowing;
mod latenesses;
mod passing;
mod room;
mod search;
mod trying;

pub use choices::first_passing;
pub use latenesses::Latenesses;
pub use passing::{Passing, first_beside};
pub use trying::try_choice;
