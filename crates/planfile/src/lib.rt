// The plan file: its records, a reader over the bytes that a caller lends, and which bytes are a plan file.
// Knows no plan test, no figure, and no rule but by its code.
#![tactic(auto)]

mod file;
mod reader;
mod reads;
mod record;

pub use file::read_plan;
pub use reader::Reader;
pub use record::{JobRecord, Record};
