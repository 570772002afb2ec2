// Prints the state of the image whose bytes are on standard input. More bytes than are read are more than any image has, and
// those that are read are refused for it.
#![tactic(auto)]

use image::Refusal;
use image_state::State;
use std::io;
use std::io::{BufWriter, Read, Write};

// The most bytes that are read.
const MOST: u64 = 65536;

fn main(rt: HostRuntime) -> io::Result<()> {
    let mut out = BufWriter::new(rt.alloc(), io::writer(&rt))?;
    let mut image = Vec::new(rt.alloc());
    rt.reader().take(MOST).read_to_end(&mut image)?;
    match image_state::state_in(&image) {
        Err(why) => writeln!(out, "refused={}", number_of(why))?,
        Ok(state) => told(&mut out, state)?,
    }
    out.flush()
}

fn number_of(why: Refusal) -> u64 {
    match why {
        Refusal::BadLength => 1,
        Refusal::BadControl => 2,
        Refusal::BadRow(_) => 3,
    }
}

fn told(out: &mut impl Write, state: State) -> io::Result<()> {
    writeln!(out, "cons={}", state.rd)?;
    writeln!(out, "prod={}", state.wr)?;
    writeln!(out, "err={}", state.err)?;
    writeln!(out, "active={}", u8::from(state.active))?;
    writeln!(out, "enabled={}", u8::from(state.enabled))?;
    writeln!(out, "used={}", state.used)
}
