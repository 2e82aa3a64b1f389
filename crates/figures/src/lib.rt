// How long a copy can be held off: windows and figures of copies in a set.
// Knows copies and a precedence rule; nothing of machines, plans or days.
#![tactic(auto)]

mod copies;
mod windows;

pub use copies::{JobCopy, Role};
pub use windows::{figure, window};
