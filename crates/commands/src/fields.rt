// The fields of a command: each by its bits, which lie in one of the command's two words.
ghost use Rattle.std.specs.Prelude.{◌≡◌, ◌+◌, ◌/◌, ◌≤◌, ◌<◌};
ghost use Rattle.words.specs.Parts.{part, joined};

// A command's two words.
#[derive(Clone, Copy)]
pub struct Coded {
    pub lo: u64,
    pub hi: u64,
}

// Bits of a command, from a highest down to a lowest: fewer than 63, and in one of its words.
#[derive(Clone, Copy)]
pub struct Field {
    pub high: u64,
    pub low: u64,
    pub ghost ordered: { low ≤ high },
    pub ghost in_command: { high < 128 },
    pub ghost narrower: { high < low + 63 },
    pub ghost in_one_word: { high / 64 ≡ low / 64 },
}

impl Field {
    // The number in these bits of a command.
    pub fn of(self, c: Coded) -> u64
        ensures { result ≡ part self.high self.low (joined c.lo c.hi) }
    {
        if self.low < 64 {
            return words::part(c.lo, self.high, self.low);
        }
        words::part(c.hi, self.high - 64, self.low - 64)
    }
}

pub const CODE: Field = Field { high: 7, low: 0 };

pub const STREAM: Field = Field { high: 63, low: 32 };

pub const SUBSTREAM: Field = Field { high: 31, low: 12 };

pub const RANGE: Field = Field { high: 68, low: 64 };

pub const LEAF: Field = Field { high: 64, low: 64 };

pub const VMID: Field = Field { high: 47, low: 32 };

pub const ASID: Field = Field { high: 63, low: 48 };

// Addresses without their low 12 bits.
pub const PAGE: Field = Field { high: 127, low: 76 };

pub const IPA_PAGE: Field = Field { high: 115, low: 76 };

pub const DPT_PAGE: Field = Field { high: 119, low: 76 };

pub const CS: Field = Field { high: 13, low: 12 };

pub const NUM: Field = Field { high: 16, low: 12 };

pub const SCALE: Field = Field { high: 24, low: 20 };

pub const TG: Field = Field { high: 75, low: 74 };

pub const TTL: Field = Field { high: 73, low: 72 };

pub const TTL128: Field = Field { high: 71, low: 71 };

pub const SIZE: Field = Field { high: 75, low: 72 };
