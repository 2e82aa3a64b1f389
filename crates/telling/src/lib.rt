// How the programs word what a plan answers. Knows placements and refusals; knows no plan.
#![tactic(auto)]

mod answer;
mod figured;
mod standing;

pub use answer::{tell, tell_figures, tell_place, tell_withdraw};
pub use figured::Figured;
pub use standing::Standing;
