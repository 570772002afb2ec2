// The kept memory as a whole: whether the unit takes it, and what its control word says.
use crate::files;
use crate::files::Words;
use control::Fields;
use image::Refusal;
use std::io::Write;
use std::{fmt, io};

// The bits of the control word that are always 0.
const ZERO_HIGH: u64 = 63;

const ZERO_LOW: u64 = 56;

// Answers whether the unit takes it.
pub fn told(out: &mut impl Write, kept: &Words) -> io::Result<bool> {
    files::heading_told(
        &mut *out,
        "Kept memory",
        Some(kept.bytes),
        files::WORD * files::KEPT,
    )?;
    let checked = check(kept);
    match checked {
        Ok(_) => writeln!(out, "  accepted by the unit")?,
        Err(why) => writeln!(out, "  refused {}", Refused(why))?,
    }
    if let Some(w) = kept.words.first() {
        let (rows, rest) = files::fours(&kept.words);
        files::rest_told(&mut *out, rest, kept.bytes)?;
        control_told(&mut *out, *w)?;
        let n = rows.len();
        let used = rows.iter().filter(|[w0, ..]| *w0 != 0).count();
        writeln!(out, "  rows in use: {used} of {n}")?;
    }
    Ok(checked.is_ok())
}

fn check(kept: &Words) -> Result<usize, Refusal> {
    if !kept.is_whole() {
        return Err(Refusal::BadLength);
    }
    image::check(&kept.words)
}

// A refusal by its number, and what it means.
#[derive(Clone, Copy)]
struct Refused(Refusal);

impl fmt::Display for Refused {
    fn fmt<W: fmt::Write>(&self, f: &mut fmt::Formatter<W>) -> fmt::Result {
        match self.0 {
            Refusal::BadLength => write!(
                f,
                "1: the length is not 8 times 1 + 4 N bytes with N from 1 to {}",
                image::MAX_ROWS
            ),
            Refusal::BadControl => f.write_str("2: the control word is ill formed"),
            Refusal::BadRow(i) => write!(f, "3: row {i} is ill formed, and none below it"),
        }
    }
}

fn control_told(out: &mut impl Write, w: u64) -> io::Result<()> {
    let c = control::fields_of(w);
    let good = control::well_formed(w);
    writeln!(out, "  control word 0x{w:x}")?;
    if good {
        indexes_told(&mut *out, c)?;
    } else {
        writeln!(out, "  RD 0x{:x}\n  WR 0x{:x}", c.rd, c.wr)?;
        writeln!(out, "  LOG2SIZE {}", c.log2size)?;
    }
    writeln!(out, "  ERR {}", c.err)?;
    writeln!(
        out,
        "  error active: {} (GERROR {}, GERRORN {})",
        yes_or_no(control::active(w)),
        c.gerror,
        c.gerrorn
    )?;
    writeln!(out, "  queue enabled: {}", yes_or_no(c.cmdqen == 1))?;
    writeln!(out, "  interrupt pending: {}", yes_or_no(c.pending == 1))?;
    if !good {
        faults_told(&mut *out, c, w)?;
    }
    Ok(())
}

pub fn yes_or_no(is: bool) -> &'static str {
    if is { "yes" } else { "no" }
}

// The indexes of a well-formed word.
fn indexes_told(out: &mut impl Write, c: Fields) -> io::Result<()> {
    let n = c.log2size % 32;
    writeln!(out, "  RD 0x{:x}, slot {}", c.rd, indexes::slot(n, c.rd))?;
    writeln!(out, "  WR 0x{:x}, slot {}", c.wr, indexes::slot(n, c.wr))?;
    writeln!(out, "  LOG2SIZE {n}, slots: {}", words::power(n))?;
    writeln!(
        out,
        "  commands that wait: {}",
        indexes::distance(n, c.rd, c.wr)
    )
}

// The rules that the control word breaks.
fn faults_told(out: &mut impl Write, c: Fields, w: u64) -> io::Result<()> {
    let n = c.log2size % 32;
    let turn = words::power(n + 1);
    let zero = words::part(w, ZERO_HIGH, ZERO_LOW);
    if zero != 0 {
        writeln!(out, "  wrong: bits 63 to 56 are 0x{zero:x} and not 0")?;
    }
    if control::MAX_LOG2 < n {
        writeln!(out, "  wrong: LOG2SIZE is above {}", control::MAX_LOG2)?;
    }
    if turn <= c.rd {
        writeln!(out, "  wrong: RD is not below 0x{turn:x}")?;
    }
    if turn <= c.wr {
        writeln!(out, "  wrong: WR is not below 0x{turn:x}")?;
    }
    if words::power(n) < indexes::distance(n, c.rd, c.wr) {
        writeln!(
            out,
            "  wrong: WR is further from RD than the queue has slots"
        )?;
    }
    if 1 < c.err {
        writeln!(out, "  wrong: ERR is neither 0 nor 1")?;
    }
    if control::active(w) & (c.err != 1) {
        writeln!(out, "  wrong: an error is active and ERR is not 1")?;
    }
    Ok(())
}
