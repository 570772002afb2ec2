// The indexes of a queue of 2^n slots.
#![tactic(auto)]

ghost use Rattle.std.specs.Prelude.{◌≡◌, ◌<◌, nat_eq};
ghost use Rattle.indexes.specs.Indexes.{slots, in_range, distance, slot, next, well_formed};

// These rules stand by their numbers, since they are public and docs/PROMISES.md names them; a `Queue` has them as methods.

// How many commands wait. The difference wraps at 2^64, of which a turn is a divisor.
pub fn distance(n: u64, rd: u64, wr: u64) -> u64
    requires { n < 63 }
    ensures { result ≡ distance n rd wr }
{
    wr.wrapping_sub(rd) % words::power(n + 1)
}

// The slot that an index names.
#[tactic(auto, unfolding(crate::specs::Indexes::slot))]
pub fn slot(n: u64, rd: u64) -> u64
    requires { n < 64 }
    ensures { result ≡ slot n rd }
{
    rd % words::power(n)
}

// The index after rd.
pub fn next(n: u64, rd: u64) -> u64
    requires { n < 63 }
    ensures { result ≡ next n rd }
{
    rd.wrapping_add(1) % words::power(n + 1)
}

#[tactic(auto, unfolding(crate::specs::Indexes::in_range))]
fn in_range(n: u64, i: u64) -> bool
    requires { n < 63 }
    ensures { result ≡ in_range n i }
{
    i < words::power(n + 1)
}

// Both in range and at most a full queue apart.
#[tactic(auto, unfolding(crate::specs::Indexes::well_formed))]
pub fn well_formed(n: u64, rd: u64, wr: u64) -> bool
    requires { n < 63 }
    ensures { result ≡ well_formed n rd wr }
{
    in_range(n, rd) & in_range(n, wr) & (distance(n, rd, wr) <= words::power(n))
}

// A queue of 2^log2 slots: the index of the oldest that waits, and the one behind the newest.
#[derive(Clone, Copy)]
pub struct Queue {
    pub log2: u64,
    pub rd: u64,
    pub wr: u64,
    pub ghost small: { log2 < 63 },
}

impl Queue {
    pub fn is_well_formed(self) -> bool
        ensures { result ≡ well_formed self.log2 self.rd self.wr }
    {
        well_formed(self.log2, self.rd, self.wr)
    }

    // How many wait.
    pub fn waiting(self) -> u64
        ensures { result ≡ distance self.log2 self.rd self.wr }
    {
        distance(self.log2, self.rd, self.wr)
    }

    pub fn is_full(self) -> bool
        ensures { result ≡ nat_eq (distance self.log2 self.rd self.wr) (slots self.log2) }
    {
        self.waiting() == words::power(self.log2)
    }

    // The slot of the oldest that waits.
    pub fn oldest(self) -> u64
        ensures { result ≡ slot self.log2 self.rd }
    {
        slot(self.log2, self.rd)
    }

    // The slot behind the newest.
    pub fn free(self) -> u64
        ensures { result ≡ slot self.log2 self.wr }
    {
        slot(self.log2, self.wr)
    }

    // RD with the oldest taken.
    pub fn rd_after(self) -> u64
        ensures { result ≡ next self.log2 self.rd }
    {
        next(self.log2, self.rd)
    }

    // WR with one more put behind the newest.
    pub fn wr_after(self) -> u64
        ensures { result ≡ next self.log2 self.wr }
    {
        next(self.log2, self.wr)
    }
}
