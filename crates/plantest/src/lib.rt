// The plan test: whether every copy of a plan has its figures, under any precedence rule.
// Uses the figures library by its contracts; knows no search order and no file.
#![tactic(auto)]

mod answering;
mod check;
mod gather;
mod known;
mod listing;
mod parts;
mod quiet;
mod sweep;
mod tested;
mod verdict;
mod workspace;

pub use answering::job_figures;
pub use check::{check_plan, roster_passes};
pub use parts::{pair_passes, passive_lateness, quiet_figure};
pub use verdict::Verdict;
pub use workspace::Workspace;
