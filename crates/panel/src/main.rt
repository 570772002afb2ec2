// The fire panel beside the recorder: a record is written, power goes after each number of stores, and the panel reads what waits.
// Beside it, what it would have read from a recorder that stores the index first.
#![tactic(auto)]

mod scene;

use scene::{Event, FAULT, OLD_FAULT, OLD_FIRE, Ring};
use script::{Answer, RecordEnd};
use std::io;
use std::io::{BufWriter, Write};

// The stores of a record, and an allowance that it doesn't use up.
const STORES: u64 = 5;

const ENOUGH: u64 = 8;

fn main(rt: HostRuntime) -> io::Result<()> {
    let mut out = BufWriter::new(rt.alloc(), io::writer(&rt))?;
    writeln!(out, "The ring before: two slots, both read out")?;
    writeln!(out, "  left in slot 0: {OLD_FIRE}")?;
    writeln!(out, "  left in slot 1: {OLD_FAULT}")?;
    writeln!(out, "The record to write: {FAULT}")?;
    for stores in 0..=STORES {
        cut(&mut out, stores)?;
    }
    out.flush()
}

fn cut(out: &mut impl Write, stores: u64) -> io::Result<()> {
    let mut ring = Ring::before();
    write!(out, "\nPower for {stores} of the five stores\n  the unit: ")?;
    let is_cut = write(&mut *out, &mut ring, stores)?;
    write!(out, "  the panel: ")?;
    read(&mut *out, ring)?;
    write!(out, "  the index first, the panel would read: ")?;
    read(&mut *out, Ring::index_first(stores as usize))?;
    if is_cut {
        write!(out, "  power is back, the write is made again: ")?;
        write(&mut *out, &mut ring, ENOUGH)?;
        write!(out, "  the panel: ")?;
        read(&mut *out, ring)?;
    }
    Ok(())
}

// Whether it was cut.
fn write(out: &mut impl Write, ring: &mut Ring, allowance: u64) -> io::Result<bool> {
    match ring.write(FAULT, allowance) {
        Ok(Answer::Recorded { end, stores }) => {
            writeln!(out, "{end}, stores {stores}")?;
            Ok(end == RecordEnd::Cut)
        }
        _ => {
            writeln!(out, "refused")?;
            Ok(false)
        }
    }
}

// What waits in a copy, so that the ring stays as it is.
fn read(out: &mut impl Write, ring: Ring) -> io::Result<()> {
    let mut copy = ring;
    match copy.read() {
        Ok(Answer::Oldest(words)) => writeln!(out, "{}", Event::from(words)),
        _ => writeln!(out, "nothing waits"),
    }
}
