// The control word: its parts, and what it lets a run do.
#![tactic(auto)]

pub mod places;
mod word;

pub use word::{
    MAX_LOG2, active, fields_of, gerror_of, log2size_of, pending_of, queue_of, rd_of, slot_of,
    standing_of, well_formed, wr_of,
};

// Why a run does nothing more: three of the ends that document 01 names.
#[derive(Clone, Copy)]
pub enum Rest {
    Off,
    Held,
    Empty,
}

// The parts of the control word.
#[derive(Clone, Copy)]
pub struct Fields {
    pub rd: u64,
    pub wr: u64,
    pub err: u64,
    pub gerror: u64,
    pub gerrorn: u64,
    pub cmdqen: u64,
    pub log2size: u64,
    pub pending: u64,
}
