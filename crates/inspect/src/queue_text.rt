// The commands that wait, from RD to WR, and of a queue of another length all that it holds.
use crate::files;
use command_text::{Code, Fields, Illegal, coded_in};
use commands::{Coded, Decoded, Features, fields};
use std::io;
use std::io::Write;

// The bytes of a slot are this power of two.
const SLOT_LOG2: u64 = 4;

// Answers whether the queue's length is that which the control word says, or there is none.
pub fn told(
    out: &mut impl Write,
    queue: &Option<Vec<u8>>,
    kept: &[u64],
    features: Features,
) -> io::Result<bool> {
    files::heading_told(
        &mut *out,
        "Queue",
        queue.as_ref().map(|queue| queue.len()),
        files::QUEUE,
    )?;
    let Some(queue) = queue else {
        writeln!(out, "  so no command is told, nor what a run would do")?;
        return Ok(true);
    };
    let w = match kept.first() {
        Some(w) if control::well_formed(*w) => *w,
        _ => {
            writeln!(
                out,
                "  without a good control word it is not known which commands wait"
            )?;
            every_told(&mut *out, queue, features)?;
            return Ok(false);
        }
    };
    if !runs::queue_good(queue, w) {
        writeln!(
            out,
            "  refused 4: the length is not 16 x 2^LOG2SIZE, which is {} bytes",
            words::power(SLOT_LOG2 + control::log2size_of(w))
        )?;
        every_told(&mut *out, queue, features)?;
        return Ok(false);
    }
    waiting_told(&mut *out, queue, features, w)?;
    Ok(true)
}

fn waiting_told(out: &mut impl Write, queue: &[u8], features: Features, w: u64) -> io::Result<()> {
    let n = control::log2size_of(w);
    let rd = control::rd_of(w);
    let waiting = indexes::distance(n, rd, control::wr_of(w));
    writeln!(out, "  commands that wait: {waiting}")?;
    let (slots, _) = queue.as_chunks::<16>();
    for k in 0..waiting {
        let slot = indexes::slot(n, rd.wrapping_add(k)) as usize;
        if let Some(bytes) = slots.get(slot) {
            command_told(&mut *out, slot, coded_in(bytes), features)?;
        }
    }
    Ok(())
}

// Every whole slot but those that are all 0.
fn every_told(out: &mut impl Write, queue: &[u8], features: Features) -> io::Result<()> {
    writeln!(
        out,
        "  the whole slots that are not 0, whether or not they wait:"
    )?;
    let (slots, rest) = queue.as_chunks::<16>();
    for (slot, bytes) in slots.iter().enumerate() {
        if *bytes != [0; 16] {
            command_told(&mut *out, slot, coded_in(bytes), features)?;
        }
    }
    if !rest.is_empty() & (queue.len() <= files::QUEUE) {
        writeln!(out, "  bytes behind the last whole slot: {}", rest.len())?;
    }
    Ok(())
}

fn command_told(
    out: &mut impl Write,
    slot: usize,
    coded: Coded,
    features: Features,
) -> io::Result<()> {
    write!(out, "  slot {slot}: {}", Code(fields::CODE.of(coded)))?;
    match commands::decode(features, coded.lo, coded.hi) {
        Decoded::Legal(command) => writeln!(out, "{}", Fields { command, features }),
        Decoded::Illegal(reason) => {
            let illegal = Illegal {
                reason,
                coded,
                features,
            };
            let Coded { lo, hi } = coded;
            writeln!(out, " (0x{lo:x} 0x{hi:x}) is illegal: {illegal}")
        }
    }
}
