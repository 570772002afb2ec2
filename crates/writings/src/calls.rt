// The calls, through the C interface, what they tell, and what they leave.
use crate::lent::Lent;
use script::{Answer, Begun, Call, Listed, World, accepted};
use std::io;
use std::io::{Read, Write};

// Longer by a word than the longest slot of a case.
const ROOM: usize = 40;

// Writes a command into the first bytes of a memory of 0xa5, and tells the words that the slot reaches into.
pub fn write(
    line: Begun<'_, impl Read + Drop>,
    out: &mut impl Write,
    bytes: usize,
) -> io::Result<()> {
    let w = line.tell(&mut *out, "")?.words::<17>()?;
    let mut fields = [0; 16];
    fields.copy_from_slice(&w[1..]);
    let mut room = [0xa5u8; ROOM];
    if 32 < bytes {
        return Ok(());
    }
    let mut answer = [0; 8];
    match host::tahvenno_write_command(&mut room[..bytes], &fields, w[0], &mut answer) {
        0 => write!(out, "written")?,
        number => write!(out, "refused {number}")?,
    }
    write!(out, "; slot")?;
    for at in (0..bytes).step_by(8) {
        write!(out, " {:x}", words::word_at(&room, at))?;
    }
    writeln!(out)
}

// Writes the batch, and tells the kept memory and the queue's slots.
pub fn write_batch(
    line: Begun<'_, impl Read + Drop>,
    out: &mut impl Write,
    lent: &mut Lent,
) -> io::Result<()> {
    let w = line.tell(&mut *out, "")?.words::<8>()?;
    let Some(queue) = &mut lent.queue else {
        return Ok(());
    };
    let mut answer = [0; 8];
    let number = host::tahvenno_write_batch(&mut lent.kept, queue, &lent.batch, w[0], &mut answer);
    match accepted(number, answer) {
        Ok(_) => write!(out, "written")?,
        Err(why) => write!(out, "{why}")?,
    }
    writeln!(out, "; kept{}", Listed(&lent.kept))?;
    slots(&mut *out, queue)
}

// The slots of a queue that are not zero, each by its number and its two words.
fn slots(out: &mut impl Write, queue: &[u8]) -> io::Result<()> {
    write!(out, "  slots")?;
    for (i, slot) in queue.chunks_exact(16).enumerate() {
        let low = words::word_at(slot, 0);
        let high = words::word_at(slot, 8);
        if (low, high) != (0, 0) {
            write!(out, " {i}: {low:x} {high:x}")?;
        }
    }
    writeln!(out)
}

// Runs, and tells the kept memory.
pub fn run(
    line: Begun<'_, impl Read + Drop>,
    out: &mut impl Write,
    lent: &mut Lent,
) -> io::Result<()> {
    let w = line.tell(&mut *out, "")?.words::<8>()?;
    let Some(queue) = &lent.queue else {
        return Ok(());
    };
    let run = Call::Run {
        features: w[0],
        allowance: w[1],
    };
    let world = World {
        kept: &mut lent.kept,
        table: &mut [0; 2],
        queue,
    };
    match run.make(world) {
        Ok(Answer::Ran(run)) => write!(out, "{run}")?,
        Ok(_) => {}
        Err(why) => write!(out, "refused {}", why.number)?,
    }
    writeln!(out, "; kept{}", Listed(&lent.kept))
}
