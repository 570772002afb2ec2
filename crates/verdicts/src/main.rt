// What decoding says of every code and every bit, and of the commands that real guests sent.
#![tactic(auto)]

mod features;
mod formats;
mod guests;

use std::io;
use std::io::{BufWriter, Write};

fn main(rt: HostRuntime) -> io::Result<()> {
    let mut out = BufWriter::new(rt.alloc(), io::writer(&rt))?;
    formats::told(&mut out)?;
    guests::told(&rt, &mut out)?;
    out.flush()
}
