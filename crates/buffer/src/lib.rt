// Buffers that take their memory when they are made, so that no call on them can fail for want of it.
// Knows nothing of what they hold.
#![tactic(auto)]

mod buffer;

pub use buffer::Buffer;
