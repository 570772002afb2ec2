// What the programs share: words and digits in hex, and what is told of a file that the system refuses.
#![tactic(auto)]

mod failures;
mod hex;

pub use failures::fail;
pub use hex::{Hex, digit};
