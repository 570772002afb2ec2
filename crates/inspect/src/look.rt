// What a person should look at, and why.
use crate::files;
use crate::files::{Dump, Words};
use commands::Features;
use rows::{Kind, Mark, Row};
use std::io;
use std::io::Write;

// `good`: nothing is refused. `raised`: a run raises an error.
pub fn told(
    out: &mut impl Write,
    dump: &Dump,
    features: Features,
    good: bool,
    raised: bool,
) -> io::Result<()> {
    writeln!(out, "\nWhat is worth a look")?;
    if !good {
        writeln!(out, "  what is told as refused above")?;
    }
    if raised {
        writeln!(
            out,
            "  an illegal command waits, for which a run raises an error"
        )?;
    }
    let (rows, _) = files::fours(&dump.kept.words);
    let mut any = control_told(&mut *out, &dump.kept.words)?;
    any |= doubled_told(&mut *out, rows)?;
    any |= marked_told(&mut *out, rows, features)?;
    any |= dropped_told(&mut *out, &dump.events)?;
    if good & !raised & !any {
        writeln!(out, "  nothing")?;
    }
    Ok(())
}

// The control word, if it is one. This and what follows answers whether there was something to tell.
fn control_told(out: &mut impl Write, kept: &[u64]) -> io::Result<bool> {
    let w = match kept.first() {
        Some(w) if control::well_formed(*w) => *w,
        _ => return Ok(false),
    };
    let active = control::active(w);
    let pending = control::pending_of(w) == 1;
    let n = control::log2size_of(w);
    let waiting = indexes::distance(n, control::rd_of(w), control::wr_of(w));
    let full = waiting == words::power(n);
    if active {
        writeln!(
            out,
            "  an error is active: until the guest acknowledges it a run does nothing"
        )?;
    }
    if pending {
        writeln!(
            out,
            "  an interrupt is pending: it is to be raised, then cleared"
        )?;
    }
    if full {
        writeln!(out, "  the queue is full")?;
    }
    Ok(active | pending | full)
}

// Rows that could answer the same access as a lower one. Rows that are ill formed answer nothing, since the unit refuses the whole
// memory.
fn doubled_told(out: &mut impl Write, rows: &[[u64; 4]]) -> io::Result<bool> {
    let mut any = false;
    for (j, four) in rows.iter().enumerate() {
        let row = files::row_of(four);
        if rows::may_answer(row) & row_forms::well_formed(row) {
            any |= doubles_told(&mut *out, &rows[..j], j, row)?;
        }
    }
    Ok(any)
}

// Tells that the row at j is never reached, or else the lower rows that answer before it.
fn doubles_told(out: &mut impl Write, lower: &[[u64; 4]], j: usize, row: Row) -> io::Result<bool> {
    if let Some(i) = lower
        .iter()
        .position(|low| shadows(files::row_of(low), row))
    {
        writeln!(
            out,
            "  row {j} never answers: row {i} answers all that it could"
        )?;
        return Ok(true);
    }
    let mut any = false;
    for (i, low) in lower.iter().enumerate() {
        if collides(files::row_of(low), row) {
            if !any {
                write!(
                    out,
                    "  row {j} could answer accesses that these lower rows answer first:"
                )?;
            }
            any = true;
            write!(out, " {i}")?;
        }
    }
    if any {
        writeln!(out)?;
    }
    Ok(any)
}

fn collides(low: Row, high: Row) -> bool {
    doubles::collides(low, high) && row_forms::well_formed(low)
}

// Whether the lower of two rows answers whatever the other could. Spans are powers of two from multiples of themselves, so that of
// two that meet the smaller lies in the other.
fn shadows(low: Row, high: Row) -> bool {
    let p = rows::parts_of(low);
    let q = rows::parts_of(high);
    (q.span <= p.span) && ((p.kind != Kind::Stage1) | p.global | !q.global) && collides(low, high)
}

// The hypervisor's rows, if no command for them is legal.
fn marked_told(out: &mut impl Write, rows: &[[u64; 4]], features: Features) -> io::Result<bool> {
    if features.hyp & features.s1p {
        return Ok(false);
    }
    let mut any = false;
    for (i, four) in rows.iter().enumerate() {
        let row = files::row_of(four);
        let p = rows::parts_of(row);
        if (row.w0 != 0) & (p.kind == Kind::Stage1) & (p.mark != Mark::Unmarked) {
            any = true;
            let mark = match p.mark {
                Mark::El2 => "EL2",
                Mark::El2E2h => "EL2-E2H",
                _ => "both",
            };
            writeln!(
                out,
                "  row {i} is the hypervisor's ({mark}), and without Hyp and S1P no command removes it"
            )?;
        }
    }
    Ok(any)
}

// Of a recorder that is accepted.
fn dropped_told(out: &mut impl Write, events: &Option<Words>) -> io::Result<bool> {
    let Some(events) = events else {
        return Ok(false);
    };
    let dropped = match events.words.first() {
        Some(w) => events::check(&events.words).is_ok() && events::outstanding(*w),
        None => false,
    };
    if dropped {
        writeln!(
            out,
            "  records were dropped, and nobody has acknowledged it"
        )?;
    }
    Ok(dropped)
}
