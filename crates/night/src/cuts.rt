// The night again, once for each of its stores: power goes when so many of them are made. The call that is cut by it is made
// again before anything else, with enough; then the rest is made.
use crate::memories::{Made, Memory};
use crate::whole::Whole;
use std::io;
use std::io::Write;

// An allowance that no call uses up.
const ENOUGH: u64 = 0xffff;

// A night so far: its memory, the stores until power goes, if it has not gone yet, whether a call was made again, and whether
// each answer was that of the night without a cut.
#[derive(Clone, Copy)]
struct Night {
    memory: Memory,
    left: Option<u64>,
    again: bool,
    same: bool,
}

pub fn every(out: &mut impl Write, whole: &Whole) -> io::Result<()> {
    let calls = whole.calls.len();
    let stores = whole.stores;
    let mut again: u64 = 0;
    let mut same: u64 = 0;
    for k in 0..stores {
        let night = Night::play(whole, k);
        again = again.wrapping_add(u64::from(night.again));
        same = same.wrapping_add(u64::from(night.same & (night.memory == whole.end)));
    }
    let all = if same == stores { "All" } else { "Not all" };
    writeln!(out, "calls {calls}, stores {stores}")?;
    write!(
        out,
        "Played again {stores} times, power going after each number of stores: "
    )?;
    writeln!(
        out,
        "{again} times in a call that was then made again, else before a call's only store"
    )?;
    writeln!(
        out,
        "{all} nights ended in the same words, with the same answers but for a run's counts"
    )
}

impl Night {
    // The whole night, where power goes when so many stores are made.
    fn play(whole: &Whole, stores: u64) -> Self {
        let mut night = Night {
            memory: whole.start,
            left: Some(stores),
            again: false,
            same: true,
        };
        for made in whole.calls.iter() {
            night.step(made);
        }
        night
    }

    // One call. If it makes more stores than are left, power goes in it.
    fn step(&mut self, uncut: &Made) {
        self.cut(uncut);
        let call = uncut.call.allowing(ENOUGH).unwrap_or(uncut.call);
        let made = self.memory.make(call);
        self.same &= made.is_like(uncut);
    }

    // What comes before a call is made with enough: nothing, or the call cut in it. Where it makes a single store, power goes
    // before that.
    fn cut(&mut self, uncut: &Made) {
        let Some(left) = self.left else {
            return;
        };
        self.left = left.checked_sub(uncut.stores());
        if self.left.is_some() {
            return;
        }
        if let Some(call) = uncut.call.allowing(left) {
            let made = self.memory.make(call);
            self.again = true;
            self.same &= made.is_cut();
        }
    }
}
