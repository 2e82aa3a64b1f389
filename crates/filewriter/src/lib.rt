// Writes a roster as a plan file. Knows no plan test and no rule but by its code.
#![tactic(auto)]

mod bytes;
mod writing;

pub use writing::write_roster;
