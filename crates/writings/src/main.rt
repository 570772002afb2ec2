// The cases of the two writers, as a program over text. A line's first letter says what it does; what stands before the colon is
// what the line is about, and behind it are words in hex. n says how many bytes a slot has from then on; w writes a command into
// a slot whose bytes are all 0xa5: the features, then the command's words, those not given 0. d starts a batch with a command, +
// adds one to it, each filled up with zeros to sixteen words, and - adds words as they stand. k starts a kept memory with these
// words, r adds a row to it; q makes a queue of so many bytes, zero but for the words from a place on. b writes the batch with
// these features, and g runs with features and an allowance. Each w, b and g is a line of output or two.
#![tactic(auto)]

mod calls;
mod lent;

use lent::Lent;
use script::Lines;
use std::alloc::Global;
use std::io;
use std::io::{BufWriter, Read, Write};

fn main(rt: HostRuntime) -> io::Result<()> {
    let mut lines = Lines::new(rt.alloc(), rt.reader())?;
    let mut out = BufWriter::new(rt.alloc(), io::writer(&rt))?;
    all(rt.alloc(), &mut lines, &mut out)?;
    out.flush()
}

fn all(alloc: Global, lines: &mut Lines<impl Read + Drop>, out: &mut impl Write) -> io::Result<()> {
    let mut lent = Lent::new(alloc);
    let mut slot = 16;
    for _ in 0..u64::MAX {
        let Some(line) = lines.begin()? else {
            break;
        };
        match line.letter {
            b'n' => slot = line.pass()?.words::<8>()?[0] as usize,
            b'w' => calls::write(line, &mut *out, slot)?,
            b'd' => lent.start_batch(line.pass()?)?,
            b'+' => lent.add_command(line.pass()?)?,
            b'-' => lent.add_words(line.pass()?)?,
            b'k' => lent.start_kept(line.pass()?)?,
            b'r' => lent.add_row(line.pass()?)?,
            b'q' => lent.start_queue(line.pass()?)?,
            b'b' => calls::write_batch(line, &mut *out, &mut lent)?,
            _ => calls::run(line, &mut *out, &mut lent)?,
        }
    }
    Ok(())
}
