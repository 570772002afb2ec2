// Scripts of calls, which several programs read: their lines, and the calls that a line asks for by its letter.
#![tactic(auto)]

mod answers;
mod calls;
mod lines;

pub use answers::{
    Answer, End, FillEnd, Miss, Outcome, Output, Reason, RecordEnd, Refusal, Run, accepted,
};
pub use calls::{Access, Call, World};
pub use lines::{Begun, Digits, Line, Lines, Listed, spread};
