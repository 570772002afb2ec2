// The tests of rows that screens are made of.
ghost use Rattle.screens.specs.Screens.{marked, named, streaming, near, about};

use crate::scan::RowTest;
use crate::{Pattern, places};
use rows::Row;

// Rows by their word 0.
#[derive(Clone, Copy)]
pub struct Marked {
    pub word0: Pattern,
}

impl RowTest for Marked {
    ghost passes = { λ t row. marked t.word0.mask t.word0.value row };

    #[tactic(auto, unfolding(crate::specs::Screens::marked))]
    fn passes(&self, row: Row) -> bool {
        self.word0.fits(row.w0)
    }
}

// Rows by their words 0 and 1.
#[derive(Clone, Copy)]
pub struct Named {
    pub word0: Pattern,
    pub word1: Pattern,
}

impl RowTest for Named {
    ghost passes = { λ t row. named t.word0.mask t.word0.value t.word1.mask t.word1.value row };

    #[tactic(auto, unfolding(crate::specs::Screens::named))]
    fn passes(&self, row: Row) -> bool {
        self.word0.fits(row.w0) & self.word1.fits(row.w1)
    }
}

// Used rows of STEs and CDs whose stream fits, but for as many low bits as the row has in its span.
#[derive(Clone, Copy)]
pub struct Streaming {
    pub stream: Pattern,
}

impl RowTest for Streaming {
    ghost passes = { λ t row. streaming t.stream.mask t.stream.value row };

    #[tactic(auto, unfolding(crate::specs::Screens::streaming))]
    fn passes(&self, row: Row) -> bool {
        let rest = ((row.w1 & self.stream.mask) ^ self.stream.value) >> rows::span_of(row);
        !(row.w0 == 0) & ((row.w0 & places::STAGES) | rest == 0)
    }
}

// Rows as far behind an address, around 2^64, as one that covers it is.
#[derive(Clone, Copy)]
pub struct Near {
    pub address: u64,
}

impl RowTest for Near {
    ghost passes = { λ t row. near t.address row };

    #[tactic(auto, unfolding(crate::specs::Screens::near))]
    fn passes(&self, row: Row) -> bool {
        crate::ahead(self.address, row.w2) >> rows::span_of(row) == 0
    }
}

// Rows as far behind the last of some bytes, around 2^64, as one that shares one of them is: the last, and so many before it.
#[derive(Clone, Copy)]
pub struct About {
    pub last: u64,
    pub more: u64,
}

impl RowTest for About {
    ghost passes = { λ t row. about t.last t.more row };

    #[tactic(auto, unfolding(crate::specs::Screens::about))]
    fn passes(&self, row: Row) -> bool {
        crate::ahead(self.last, row.w2)
            < std::num::wrapping_add_u64(words::power(rows::span_of(row)), self.more)
    }
}
