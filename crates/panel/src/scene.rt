// A ring of two slots, both written and read out before, and a record for it.
use script::{Answer, Call, Refusal, World};
use std::fmt;

// n 1, RD 2, WR 2; and with WR moved on.
const INDEX: u64 = 0x400_0020_0002;

const WRITTEN: u64 = 0x400_0030_0002;

pub const OLD_FIRE: Event = Event {
    what: What::Fire,
    aisle: 3,
    degrees: 70,
    minute: 17,
};

pub const OLD_FAULT: Event = Event {
    what: What::WarmFreezer,
    aisle: 5,
    degrees: 1,
    minute: 480,
};

pub const FAULT: Event = Event {
    what: What::WarmFreezer,
    aisle: 8,
    degrees: 4,
    minute: 1380,
};

#[derive(Clone, Copy)]
pub enum What {
    Fire,
    WarmFreezer,
}

#[derive(Clone, Copy)]
pub struct Event {
    what: What,
    aisle: u64,
    degrees: u64,
    minute: u64,
}

impl Event {
    fn words(self) -> [u64; 4] {
        let what = match self.what {
            What::Fire => 1,
            What::WarmFreezer => 2,
        };
        [what, self.aisle, self.degrees, self.minute]
    }
}

impl From<[u64; 4]> for Event {
    fn from([what, aisle, degrees, minute]: [u64; 4]) -> Self {
        let what = match what {
            1 => What::Fire,
            _ => What::WarmFreezer,
        };
        Event {
            what,
            aisle,
            degrees,
            minute,
        }
    }
}

impl fmt::Display for Event {
    fn fmt<W: fmt::Write>(&self, f: &mut fmt::Formatter<W>) -> fmt::Result {
        let Event {
            what,
            aisle,
            degrees,
            minute,
        } = *self;
        write!(
            f,
            "{what}, aisle {aisle}, {degrees} degrees, minute {minute}"
        )
    }
}

impl fmt::Display for What {
    fn fmt<W: fmt::Write>(&self, f: &mut fmt::Formatter<W>) -> fmt::Result {
        f.write_str(match self {
            What::Fire => "fire",
            What::WarmFreezer => "a warm freezer",
        })
    }
}

#[derive(Clone, Copy)]
pub struct Ring([u64; 9]);

impl Ring {
    pub fn before() -> Self {
        let [a, b, c, d] = OLD_FIRE.words();
        let [e, f, g, h] = OLD_FAULT.words();
        Ring([INDEX, a, b, c, d, e, f, g, h])
    }

    // What a recorder leaves that stores the index first and then the words, after so many stores.
    pub fn index_first(stores: usize) -> Self {
        let [a, b, c, d] = FAULT.words();
        let stored = [WRITTEN, a, b, c, d];
        let mut left = Ring::before();
        for (to, w) in left.0.iter_mut().zip(stored.iter()).take(stores) {
            *to = *w;
        }
        left
    }

    pub fn write(&mut self, event: Event, allowance: u64) -> Result<Answer, Refusal> {
        self.make(Call::EventWrite {
            words: event.words(),
            allowance,
        })
    }

    pub fn read(&mut self) -> Result<Answer, Refusal> {
        self.make(Call::EventRead)
    }

    fn make(&mut self, call: Call) -> Result<Answer, Refusal> {
        call.make(World {
            kept: &mut self.0,
            table: &mut [],
            queue: &[],
        })
    }
}
