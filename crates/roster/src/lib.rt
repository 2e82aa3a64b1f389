// The placements of a plan, in rising job number: at most 96, on 2 to 16 machines, each job once, its two
// machines different and of the rack. All of that holds of every value by its type. Knows no rule and no test.
#![tactic(auto)]

mod changes;
mod loading;
mod places;
mod reading;
mod roster;
mod taking;

pub use places::place_for;
pub use roster::Roster;
pub use taking::all_placed_in;
