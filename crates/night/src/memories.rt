// A night's memories, and the calls that are made on them.
use script::{Access, Answer, Call, Refusal, World};

// Six rows, three regions, a ring of two slots and a queue of four.
pub const KEPT: usize = 25;

pub const TABLE: usize = 6;

pub const RING: usize = 9;

pub const BYTES: usize = 64;

#[derive(Clone, Copy, PartialEq, Eq)]
pub struct Memory {
    pub kept: [u64; KEPT],
    pub table: [u64; TABLE],
    pub ring: [u64; RING],
    pub queue: [u8; BYTES],
}

// A call that was made, and what came of it.
#[derive(Clone, Copy)]
pub struct Made {
    pub call: Call,
    pub reply: Result<Answer, Refusal>,
}

impl Memory {
    pub fn new() -> Self {
        Memory {
            kept: [0; KEPT],
            table: [0; TABLE],
            ring: [0; RING],
            queue: [0; BYTES],
        }
    }

    // The memory that the call stores to changes.
    pub fn make(&mut self, call: Call) -> Made {
        let reply = if call.is_of_recorder() {
            narrowed(call).make(World {
                kept: &mut self.ring,
                table: &mut self.table,
                queue: &self.queue,
            })
        } else {
            narrowed(call).make(World {
                kept: &mut self.kept,
                table: &mut self.table,
                queue: &self.queue,
            })
        };
        Made { call, reply }
    }
}

impl Made {
    pub fn stores(&self) -> u64 {
        match self.reply {
            Ok(answer) => answer.stores(),
            Err(_) => 0,
        }
    }

    pub fn is_cut(&self) -> bool {
        match self.reply {
            Ok(answer) => answer.is_cut(),
            Err(_) => false,
        }
    }

    // Whether the same came of both, but for a run's counts.
    pub fn is_like(&self, other: &Made) -> bool {
        self.reply.map(Answer::unsplit) == other.reply.map(Answer::unsplit)
    }
}

// StreamID and SubstreamID have 32 bits, as in C.
fn narrowed(call: Call) -> Call {
    let in_c = |access: Access| Access {
        stream: access.stream % 0x1_0000_0000,
        substream: access.substream % 0x1_0000_0000,
        ..access
    };
    match call {
        Call::Translate(access) => Call::Translate(in_c(access)),
        Call::Other(access) => Call::Other(in_c(access)),
        _ => call,
    }
}
