// The second table: cached regions of the device permission table (document 02, T-11).
use crate::files;
use crate::files::Words;
use command_text::RegionSize;
use regions::{Refusal, Region};
use std::io::Write;
use std::{fmt, io};

// Answers whether the unit takes it, or there is none.
pub fn told(out: &mut impl Write, table: &Option<Words>) -> io::Result<bool> {
    files::heading_told(
        &mut *out,
        "Second table",
        table.as_ref().map(|table| table.bytes),
        files::WORD * files::TABLE,
    )?;
    let Some(table) = table else {
        return Ok(true);
    };
    let checked = check(table);
    match checked {
        Ok(n) => writeln!(out, "  accepted by the unit, rows: {n}")?,
        Err(why) => writeln!(out, "  refused {}", Refused(why))?,
    }
    let (rows, rest) = table.words.as_chunks::<2>();
    files::rest_told(&mut *out, rest, table.bytes)?;
    regions_told(&mut *out, rows)?;
    Ok(checked.is_ok())
}

fn check(table: &Words) -> Result<usize, Refusal> {
    if !table.is_whole() {
        return Err(Refusal::BadLength);
    }
    regions::check(&table.words)
}

// A refusal by its number, and what it means.
#[derive(Clone, Copy)]
struct Refused(Refusal);

impl fmt::Display for Refused {
    fn fmt<W: fmt::Write>(&self, f: &mut fmt::Formatter<W>) -> fmt::Result {
        match self.0 {
            Refusal::BadLength => write!(
                f,
                "13: the length is not 8 times 2 N bytes with N from 1 to {}",
                regions::MAX_ROWS
            ),
            Refusal::BadRow(i) => write!(f, "14: row {i} is ill formed, and none below it"),
        }
    }
}

// Tells the rows that are not empty.
fn regions_told(out: &mut impl Write, rows: &[[u64; 2]]) -> io::Result<()> {
    let mut any = false;
    for (i, [w0, w1]) in rows.iter().enumerate() {
        if *w0 != 0 {
            any = true;
            region_told(&mut *out, i, Region { w0: *w0, w1: *w1 })?;
        }
    }
    if !any {
        writeln!(out, "  no region in use")?;
    }
    Ok(())
}

fn region_told(out: &mut impl Write, i: usize, row: Region) -> io::Result<()> {
    let Region { w0, w1 } = row;
    if regions::well_formed(row) {
        write!(out, "  region {i}: ")?;
    } else {
        let invalid = if w0 % 2 == 0 { "invalid, " } else { "" };
        writeln!(out, "  region {i} is ill formed: 0x{w0:x} 0x{w1:x}")?;
        write!(out, "    it looks like: {invalid}")?;
    }
    let code = regions::size_code(row);
    let last = w1.wrapping_add(regions::bytes_of(code) - 1);
    let level = if regions::is_last(row) {
        "last-level"
    } else {
        "not last-level"
    };
    writeln!(out, "{}, 0x{w1:x} to 0x{last:x}, {level}", RegionSize(code))
}
