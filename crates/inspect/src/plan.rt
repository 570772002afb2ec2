// What a run would do now: the unit itself is called on copies, with an allowance of one store, until it does not end Cut.
use crate::files::Dump;
use commands::{Features, Reason};
use runs::{End, Ran, RunRefusal};
use std::alloc::{AllocError, Global};
use std::io;
use std::io::Write;

// More stores no run makes: a row, a region or a command each.
const MOST: usize = image::MAX_ROWS + regions::MAX_ROWS + (1 << control::MAX_LOG2);

// The words of a row of each table; the control word stands before the first.
const ROW: usize = 4;

const REGION: usize = 2;

// What a run is lent, and stores to.
#[derive(Drop)]
struct Memory {
    kept: Vec<u64>,
    table: Vec<u64>,
}

impl Memory {
    // Without a second table a run is lent one empty row.
    fn of(alloc: Global, dump: &Dump) -> Result<Memory, AllocError> {
        let table = match &dump.table {
            Some(table) => table.lent(),
            None => &[0; REGION],
        };
        Ok(Memory {
            kept: Vec::from_slice(alloc, dump.kept.lent())?,
            table: Vec::from_slice(alloc, table)?,
        })
    }

    fn copied(&self, alloc: Global) -> Result<Memory, AllocError> {
        Ok(Memory {
            kept: Vec::from_slice(alloc, &self.kept)?,
            table: Vec::from_slice(alloc, &self.table)?,
        })
    }

    fn control(&self) -> u64 {
        self.kept.first().copied().unwrap_or(0)
    }
}

// Answers whether the run raises an error.
pub fn told(
    alloc: Global,
    out: &mut impl Write,
    dump: &Dump,
    queue: &[u8],
    features: Features,
) -> io::Result<bool> {
    writeln!(out, "\nWhat a run would do now, store by store")?;
    let mut memory = Memory::of(alloc, dump)?;
    for n in 1..=MOST {
        let before = memory.copied(alloc)?;
        let ran = match runs::run(&mut memory.kept, &mut memory.table, queue, features, 1) {
            Ok(ran) => ran,
            Err(why) => {
                refusal_told(&mut *out, why)?;
                return Ok(false);
            }
        };
        if ran.stores == 1 {
            write!(out, "  store {n}: ")?;
            store_told(&mut *out, &before, &memory, ran)?;
        }
        match ran.end {
            End::Cut => {}
            end => {
                end_told(&mut *out, end)?;
                return Ok(matches!(end, End::Raised(_)));
            }
        }
    }
    Ok(false)
}

fn refusal_told(out: &mut impl Write, why: RunRefusal) -> io::Result<()> {
    write!(out, "  nothing, since it is refused: ")?;
    match why {
        RunRefusal::Image(image::Refusal::BadLength) => writeln!(out, "1"),
        RunRefusal::Image(image::Refusal::BadControl) => writeln!(out, "2"),
        RunRefusal::Image(image::Refusal::BadRow(i)) => writeln!(out, "3, row {i}"),
        RunRefusal::BadQueue => writeln!(out, "4"),
        RunRefusal::Table(regions::Refusal::BadLength) => writeln!(out, "13"),
        RunRefusal::Table(regions::Refusal::BadRow(i)) => writeln!(out, "14, row {i}"),
    }
}

// The one word that is another now, by its place.
fn store_told(out: &mut impl Write, before: &Memory, after: &Memory, ran: Ran) -> io::Result<()> {
    let w = before.control();
    let slot = control::slot_of(w);
    if let Some(i) = changed(&before.kept, &after.kept) {
        if i == 0 {
            return control_told(&mut *out, w, after.control(), ran);
        }
        let row = (i - 1) / ROW;
        return writeln!(
            out,
            "row {row} of the kept memory is removed by the command in slot {slot}"
        );
    }
    if let Some(i) = changed(&before.table, &after.table) {
        let region = i / REGION;
        writeln!(
            out,
            "region {region} of the second table is removed by the command in slot {slot}"
        )?;
    }
    Ok(())
}

// The first word that differs.
fn changed(before: &[u64], after: &[u64]) -> Option<usize> {
    before.iter().zip(after).position(|(a, b)| a != b)
}

// The control word before and after.
fn control_told(out: &mut impl Write, before: u64, after: u64, ran: Ran) -> io::Result<()> {
    if control::active(after) {
        return writeln!(
            out,
            "the error is raised: ERR is 1, GERROR flips, and RD stays"
        );
    }
    write!(
        out,
        "RD moves to 0x{:x}, past the command in slot {}",
        control::rd_of(after),
        control::slot_of(before)
    )?;
    if ran.syncs == 1 {
        let becomes = match control::pending_of(before) {
            0 => "becomes",
            _ => "stays",
        };
        write!(out, ", and the interrupt {becomes} pending")?;
    }
    writeln!(out)
}

fn end_told(out: &mut impl Write, end: End) -> io::Result<()> {
    match end {
        End::Off => writeln!(out, "  it ends Off: the queue is not enabled"),
        End::Held => writeln!(out, "  it ends Held: an error is active"),
        End::Empty => writeln!(out, "  it ends Empty: no command is left"),
        End::Raised(raising) => {
            let reason = match raising.why {
                Reason::UnknownCode => "unknown code",
                Reason::FeatureAbsent => "feature absent",
                Reason::ReservedBit => "Reserved bit",
                Reason::BadParameter => "bad parameter",
            };
            writeln!(
                out,
                "  it ends Raised: the command in slot {} is illegal, {reason}",
                raising.slot
            )
        }
        // the next call goes on
        End::Cut => Ok(()),
    }
}
