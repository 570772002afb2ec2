// The night that stands in the input, a script. k has the control word, + a row behind it; s the words of the second table, v those
// of the recorder; q the queue. The other letters make a call, whose answer and stores are a line of output.
use crate::memories::{Made, Memory};
use script::{Answer, Begun, Call, Lines, Outcome, spread};
use std::alloc::Global;
use std::io;
use std::io::{Read, Write};

// The most calls.
const CALLS: usize = 24;

// What stands before a line that is told.
const INDENT: &str = "  ";

// The calls with what came of them, the memories before and after, and the stores of all.
#[derive(Drop)]
pub struct Whole {
    pub calls: Vec<Made>,
    pub start: Memory,
    pub end: Memory,
    pub stores: u64,
}

// The calls without a cut, each as it is read.
pub fn play(
    alloc: Global,
    lines: &mut Lines<impl Read + Drop>,
    out: &mut impl Write,
) -> io::Result<Whole> {
    let start = Memory::new();
    let mut whole = Whole {
        calls: Vec::new(alloc),
        start,
        end: start,
        stores: 0,
    };
    let mut kept = Vec::new(alloc);
    for _ in 0..u64::MAX {
        let Some(line) = lines.begin()? else {
            break;
        };
        if whole.calls.len() == CALLS {
            line.leave();
            break;
        }
        if whole.calls.is_empty() {
            whole.begin(&mut *out, line, &mut kept)?;
        } else {
            whole.step(&mut *out, line)?;
        }
    }
    Ok(whole)
}

// Puts a line's words behind those that are given already, and all of them into a memory.
fn fill(
    out: &mut impl Write,
    line: Begun<'_, impl Read + Drop>,
    given: &mut Vec<u64>,
    memory: &mut [u64],
) -> io::Result<()> {
    line.tell(&mut *out, INDENT)?
        .add_to(&mut *given, memory.len())?;
    for (to, word) in memory.iter_mut().zip(given.iter()) {
        *to = *word;
    }
    writeln!(out, "at the start")
}

fn fill_queue(
    out: &mut impl Write,
    line: Begun<'_, impl Read + Drop>,
    memory: &mut Memory,
) -> io::Result<()> {
    let words = line.tell(&mut *out, INDENT)?.words()?;
    spread(&words, &mut memory.queue);
    writeln!(out, "at the start")
}

impl Whole {
    // A line before the calls, which says what the night begins with, or the first call. Given are the words that the kept memory
    // has so far.
    fn begin(
        &mut self,
        out: &mut impl Write,
        line: Begun<'_, impl Read + Drop>,
        given: &mut Vec<u64>,
    ) -> io::Result<()> {
        let mut of_line = Vec::new(*given.allocator());
        match line.letter {
            b'k' => {
                given.clear();
                fill(&mut *out, line, &mut *given, &mut self.start.kept)?;
            }
            b'+' => fill(&mut *out, line, &mut *given, &mut self.start.kept)?,
            b's' => fill(&mut *out, line, &mut of_line, &mut self.start.table)?,
            b'v' => fill(&mut *out, line, &mut of_line, &mut self.start.ring)?,
            b'q' => fill_queue(&mut *out, line, &mut self.start)?,
            _ => return self.step(&mut *out, line),
        }
        self.end = self.start;
        Ok(())
    }

    fn step(&mut self, out: &mut impl Write, line: Begun<'_, impl Read + Drop>) -> io::Result<()> {
        let letter = line.letter;
        let words = line.tell(&mut *out, INDENT)?.words()?;
        let made = self.end.make(Call::from_words(letter, words));
        let stores = made.stores();
        shown(&mut *out, &made)?;
        writeln!(out, ", stores {stores}")?;
        self.calls.push(made)?;
        self.stores = self.stores.wrapping_add(stores);
        Ok(())
    }
}

// What a call tells but for its counts.
fn shown(out: &mut impl Write, made: &Made) -> io::Result<()> {
    match made.reply {
        Ok(Answer::Ran(run)) => write!(out, "{}", run.end),
        Ok(Answer::Filled { end, .. }) => write!(out, "{end}"),
        Ok(Answer::Recorded { end, .. }) => write!(out, "{end}"),
        Ok(Answer::Oldest(w)) => {
            write!(
                out,
                "record 0x{:x} 0x{:x} 0x{:x} 0x{:x}",
                w[0], w[1], w[2], w[3]
            )
        }
        Ok(Answer::Translated(Outcome::Address(output))) => {
            write!(out, "address 0x{:x}", output.address)
        }
        Ok(Answer::Translated(outcome)) => write!(out, "{outcome}"),
        Ok(_) => write!(out, "done"),
        Err(why) => write!(out, "refused {}", why.number),
    }
}
