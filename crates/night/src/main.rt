// The fire night again: one command that takes a mapping away, and a power cut after each number of stores; beside it the same
// stores with RD first, as they were made that night. Then a whole night, which stands in the input, and a power cut after each
// number of its stores.
#![tactic(auto)]

mod cuts;
mod memories;
mod nights;
mod scene;
mod start;
mod whole;

use script::Lines;
use std::alloc::Global;
use std::io;
use std::io::{BufWriter, Read, Write};

fn main(rt: HostRuntime) -> io::Result<()> {
    let mut lines = Lines::new(rt.alloc(), rt.reader())?;
    let mut out = BufWriter::new(rt.alloc(), io::writer(&rt))?;
    start::start(&mut out)?;
    let uncut = nights::uncut(&mut out)?;
    for allowance in 0..4 {
        nights::cut(&mut out, allowance, &uncut)?;
    }
    for stores in 0..3 {
        nights::rd_first(&mut out, stores, &uncut)?;
    }
    night(rt.alloc(), &mut lines, &mut out)?;
    out.flush()
}

fn night(
    alloc: Global,
    lines: &mut Lines<impl Read + Drop>,
    out: &mut impl Write,
) -> io::Result<()> {
    writeln!(out, "\nA whole night")?;
    let whole = whole::play(alloc, &mut *lines, &mut *out)?;
    cuts::every(&mut *out, &whole)
}
