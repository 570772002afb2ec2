// The cases of the papers, as a program over text. A line's first letter says what it does; what stands before the colon is
// what the line is about, and behind it are words in hex. k starts a kept memory with these words, + adds a row to it, z makes
// it of so many zero words; s lends a second table of these words, which until then is one empty row; q makes a queue of so many
// bytes, zero but for the words from a place on. The other letters make a call, whose answer is a line of output.
#![tactic(auto)]

mod calls;
mod lent;

use calls::Step;
use lent::Lent;
use script::{Begun, Lines};
use std::alloc::Global;
use std::io;
use std::io::{BufWriter, Read, Write};

fn main(rt: HostRuntime) -> io::Result<()> {
    let mut lines = Lines::new(rt.alloc(), rt.reader())?;
    let mut out = BufWriter::new(rt.alloc(), io::writer(&rt))?;
    all(rt.alloc(), &mut lines, &mut out)?;
    out.flush()
}

fn all(alloc: Global, lines: &mut Lines<impl Read + Drop>, out: &mut impl Write) -> io::Result<()> {
    let mut lent = Lent::new(alloc)?;
    for _ in 0..u64::MAX {
        let Some(line) = lines.begin()? else {
            break;
        };
        match line.letter {
            b'k' => lent.start_kept(line.pass()?)?,
            b'+' => lent.add_row(line.pass()?)?,
            b'z' => lent.zero_kept(line.pass()?)?,
            b's' => lent.start_table(line.pass()?)?,
            b'q' => lent.start_queue(line.pass()?)?,
            _ => call(line, &mut *out, &mut lent)?,
        }
    }
    Ok(())
}

fn call(
    line: Begun<'_, impl Read + Drop>,
    out: &mut impl Write,
    lent: &mut Lent,
) -> io::Result<()> {
    let letter = line.letter;
    let words = line.tell(&mut *out, "")?.words()?;
    let step = Step::of(letter, words);
    match lent.world() {
        Some(world) => step.make(&mut *out, world),
        None => Ok(()),
    }
}
