// The rows of cached structures: four words, and their parts.
#![tactic(auto)]

mod fields;
mod kinds;
mod marks;
pub mod places;

pub use fields::{
    attributes_of, config_of, covers, is_last, kind_of, mark_of, may_answer, new_mem_attr_of,
    overrides_of, parts_of, span_of, stream_of,
};
pub use kinds::Kind;
pub use marks::Mark;

// The four words of a row.
#[derive(Clone, Copy)]
pub struct Row {
    pub w0: u64,
    pub w1: u64,
    pub w2: u64,
    pub w3: u64,
}

// The parts of words 0 and 1, but for the attributes: of every kind of row at once, since contracts (`scopes::in_scope`,
// `doubles::collides`) speak of the parts of ill-formed rows too, and Config as a number, since `inspect` prints that of such a row.
#[derive(Clone, Copy)]
pub struct Parts {
    pub kind: Kind,
    pub last: bool,
    pub global: bool,
    pub span: u64,
    pub mark: Mark,
    pub vmid: u64,
    pub asid: u64,
    pub stream: u64,
    pub substream: u64,
    pub config: u64,
    pub instcfg: u64,
    pub privcfg: u64,
}
