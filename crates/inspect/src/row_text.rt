// The rows of the kept memory, each by what it caches (document 01, The kept memory; document 02, T-04 and T-05).
use crate::{attribute_text, files};
use rows::{Kind, Mark, Parts, Row};
use std::io::Write;
use std::{fmt, io};

// Tells the rows that are not empty.
pub fn told(out: &mut impl Write, kept: &[u64]) -> io::Result<()> {
    writeln!(out, "\nRows in use")?;
    let (rows, _) = files::fours(kept);
    let mut any = false;
    for (i, four) in rows.iter().enumerate() {
        let row = files::row_of(four);
        if row.w0 != 0 {
            any = true;
            row_told(&mut *out, i, row)?;
        }
    }
    if !any {
        writeln!(out, "  none")?;
    }
    Ok(())
}

fn row_told(out: &mut impl Write, i: usize, row: Row) -> io::Result<()> {
    if row_forms::well_formed(row) {
        write!(out, "  row {i}: ")?;
    } else {
        let Row { w0, w1, w2, w3 } = row;
        let invalid = if w0 % 2 == 0 { "invalid, " } else { "" };
        writeln!(
            out,
            "  row {i} is ill formed: 0x{w0:x} 0x{w1:x} 0x{w2:x} 0x{w3:x}"
        )?;
        write!(out, "    it looks like: {invalid}")?;
    }
    let p = rows::parts_of(row);
    match p.kind {
        Kind::Ste => ste_told(&mut *out, row, p),
        Kind::Cd => cd_told(&mut *out, p),
        Kind::Stage1 => stage1_told(&mut *out, row, p),
        Kind::Stage2 => stage2_told(&mut *out, row, p),
    }
}

fn ste_told(out: &mut impl Write, row: Row, p: Parts) -> io::Result<()> {
    let stream = p.stream;
    if !p.last {
        let last = stream.wrapping_add(words::power(p.span % 64) - 1);
        return writeln!(
            out,
            "STE, not last-level, streams 0x{stream:x} to 0x{last:x} (span {})",
            p.span
        );
    }
    let config = match p.config {
        0 => "abort",
        4 => "bypass",
        5 => "stage 1",
        6 => "stage 2",
        7 => "both stages",
        _ => "ill formed",
    };
    writeln!(
        out,
        "STE, last-level, stream 0x{stream:x}, VMID 0x{:x}, Config {} ({config})",
        p.vmid, p.config
    )?;
    attribute_text::overrides_told(&mut *out, rows::overrides_of(row), p)
}

fn cd_told(out: &mut impl Write, p: Parts) -> io::Result<()> {
    if p.last {
        writeln!(
            out,
            "CD, last-level, stream 0x{:x}, substream 0x{:x}, ASID 0x{:x}",
            p.stream, p.substream, p.asid
        )
    } else {
        writeln!(out, "CD, not last-level, stream 0x{:x}", p.stream)
    }
}

// A marked row has no VMID, and one of EL2 no ASID either.
fn stage1_told(out: &mut impl Write, row: Row, p: Parts) -> io::Result<()> {
    let mark = match p.mark {
        Mark::Unmarked => "",
        Mark::El2 => ", EL2",
        Mark::El2E2h => ", EL2-E2H",
        Mark::Both => ", EL2 and EL2-E2H",
    };
    write!(out, "stage 1, {}{mark}", level(p))?;
    if (p.mark == Mark::Unmarked) | (p.vmid != 0) {
        write!(out, ", VMID 0x{:x}", p.vmid)?;
    }
    if (p.mark != Mark::El2) | (p.asid != 0) {
        write!(out, ", ASID 0x{:x}", p.asid)?;
    }
    if p.global {
        write!(out, ", global")?;
    }
    writeln!(out, "{}", Span { row, p })?;
    if p.last {
        attribute_text::attributes_told(&mut *out, rows::attributes_of(row))?;
        attribute_text::hints_told(&mut *out, rows::attributes_of(row))?;
        writeln!(out)?;
    }
    Ok(())
}

fn stage2_told(out: &mut impl Write, row: Row, p: Parts) -> io::Result<()> {
    writeln!(
        out,
        "stage 2, {}, VMID 0x{:x}{}",
        level(p),
        p.vmid,
        Span { row, p }
    )?;
    if p.last {
        attribute_text::attributes_told(&mut *out, rows::attributes_of(row))?;
        writeln!(out)?;
    }
    Ok(())
}

fn level(p: Parts) -> &'static str {
    if p.last {
        "last-level"
    } else {
        "not last-level"
    }
}

// Input addresses, and output addresses if the row is last-level.
#[derive(Clone, Copy)]
struct Span {
    row: Row,
    p: Parts,
}

impl fmt::Display for Span {
    fn fmt<W: fmt::Write>(&self, f: &mut fmt::Formatter<W>) -> fmt::Result {
        let (input, output, span) = (self.row.w2, self.row.w3, self.p.span);
        let more = words::power(span % 64) - 1;
        let last = input.wrapping_add(more);
        write!(f, ", input 0x{input:x} to 0x{last:x} (span {span})")?;
        if self.p.last {
            let last = output.wrapping_add(more);
            write!(f, ", output 0x{output:x} to 0x{last:x}")?;
        }
        Ok(())
    }
}
