// Memory attributes: what is well formed, the fields that override them, and the final rule.
#![tactic(auto)]

mod formats;
mod settling;

pub use formats::{Half, hints_formed, join_hints, mem_attr_formed, sh_formed, well_formed};
pub use settling::settled;

// The attributes of an access: MemAttr, SH and hints. They stay numbers, since the flat table of 841 combined codes goes by
// numbers, and so does the one computed test over all of it (the crate `combining`).
#[derive(Clone, Copy)]
pub struct Attributes {
    pub memattr: u64,
    pub sh: u64,
    pub hints: u64,
}

// What an STE row overrides them by: MTCFG, MemAttr, SHCFG and ALLOCCFG. Each code is asked in one place, where a match names
// its cases: an enum beside it would be no plainer.
#[derive(Clone, Copy)]
pub struct Overrides {
    pub mtcfg: u64,
    pub memattr: u64,
    pub shcfg: u64,
    pub alloccfg: u64,
}
