// A command in words, for programs that tell a person of a queue: its name, its fields, and why it is illegal.
#![tactic(auto)]

mod fields;
mod names;
mod reasons;

use commands::Coded;
pub use fields::Fields;
pub use names::{Code, RegionSize};
pub use reasons::{Illegal, is_reserved_bit};

// The command in a slot of a queue.
pub fn coded_in(slot: &[u8; 16]) -> Coded {
    Coded {
        lo: words::word_at(slot, 0),
        hi: words::word_at(slot, 8),
    }
}
