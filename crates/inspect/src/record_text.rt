// The recorder (document 02, T-01): the records that wait, and whether some were dropped.
use crate::files;
use crate::files::Words;
use crate::state_text::yes_or_no;
use events::Refusal;
use std::io::Write;
use std::{fmt, io};

// Answers whether the unit takes it, or there is none.
pub fn told(out: &mut impl Write, events: &Option<Words>) -> io::Result<bool> {
    files::heading_told(
        &mut *out,
        "Recorder",
        events.as_ref().map(|events| events.bytes),
        files::WORD * files::EVENTS,
    )?;
    let Some(events) = events else {
        return Ok(true);
    };
    let checked = check(events);
    match checked {
        Ok(_) => accepted_told(&mut *out, &events.words)?,
        Err(why) => {
            writeln!(out, "  refused {}", Refused(why))?;
            damaged_told(&mut *out, events)?;
        }
    }
    Ok(checked.is_ok())
}

fn check(events: &Words) -> Result<usize, Refusal> {
    if !events.is_whole() {
        return Err(Refusal::BadLength);
    }
    events::check(&events.words)
}

// A refusal by its number, and what it means.
#[derive(Clone, Copy)]
struct Refused(Refusal);

impl fmt::Display for Refused {
    fn fmt<W: fmt::Write>(&self, f: &mut fmt::Formatter<W>) -> fmt::Result {
        match self.0 {
            Refusal::BadLength => write!(
                f,
                "15: the length is not 8 times 1 + 4 x 2^n bytes with n from 0 to {}",
                events::MAX_LOG2
            ),
            Refusal::BadIndex => f.write_str(
                "16: the index word is ill formed, or its n is not that of the length",
            ),
        }
    }
}

fn index_told(out: &mut impl Write, w: u64) -> io::Result<()> {
    writeln!(out, "  index word 0x{w:x}")?;
    writeln!(out, "  RD 0x{:x}", events::rd_of(w))?;
    writeln!(out, "  WR 0x{:x}", events::wr_of(w))?;
    writeln!(out, "  n {}", events::log2size_of(w))?;
    writeln!(
        out,
        "  overflow outstanding: {}",
        yes_or_no(events::outstanding(w))
    )
}

// The records that wait, the oldest first.
fn accepted_told(out: &mut impl Write, events: &[u64]) -> io::Result<()> {
    writeln!(out, "  accepted by the unit")?;
    let w = events.first().copied().unwrap_or(0);
    let n = events::log2size_of(w);
    let rd = events::rd_of(w);
    let waiting = indexes::distance(n, rd, events::wr_of(w));
    index_told(&mut *out, w)?;
    writeln!(out, "  records that wait: {waiting}")?;
    let (slots, _) = files::fours(events);
    for k in 0..waiting {
        let slot = indexes::slot(n, rd.wrapping_add(k)) as usize;
        if let Some(record) = slots.get(slot) {
            record_told(&mut *out, slot, record)?;
        }
    }
    Ok(())
}

// Of words that are refused every slot, since nobody knows which wait.
fn damaged_told(out: &mut impl Write, events: &Words) -> io::Result<()> {
    let Some(w) = events.words.first() else {
        return Ok(());
    };
    let (slots, rest) = files::fours(&events.words);
    files::rest_told(&mut *out, rest, events.bytes)?;
    index_told(&mut *out, *w)?;
    writeln!(
        out,
        "  which records wait is not known; the whole slots that are not 0 are:"
    )?;
    for (slot, record) in slots.iter().enumerate() {
        if *record != [0; 4] {
            record_told(&mut *out, slot, record)?;
        }
    }
    Ok(())
}

fn record_told(out: &mut impl Write, slot: usize, record: &[u64; 4]) -> io::Result<()> {
    let [w0, w1, w2, w3] = record;
    writeln!(out, "  slot {slot}: 0x{w0:x} 0x{w1:x} 0x{w2:x} 0x{w3:x}")
}
