// The memory and the command that the night began with, as the unit reads them.
use crate::scene;
use commands::{Command, Decoded, Reason};
use rows::{Kind, Parts, Row};
use std::io;
use std::io::Write;

pub fn start(out: &mut impl Write) -> io::Result<()> {
    let kept = scene::MEMORY;
    control(&mut *out, kept[0])?;
    writeln!(out, "row 0, the alarm guest")?;
    stream(&mut *out, image::row_at(&kept, 0))?;
    writeln!(out, "row 1, the network card")?;
    mapping(&mut *out, image::row_at(&kept, 1))?;
    match image::check(&kept) {
        Ok(rows) => writeln!(out, "the unit accepts this memory, rows {rows}")?,
        Err(_) => writeln!(out, "the unit refuses this memory")?,
    }
    waiting(&mut *out, &scene::QUEUE)
}

fn control(out: &mut impl Write, w: u64) -> io::Result<()> {
    let c = control::fields_of(w);
    writeln!(out, "The memory at the start")?;
    writeln!(
        out,
        "control word 0x{w:x}: CMDQEN {}, LOG2SIZE {}, RD {}, WR {}",
        c.cmdqen, c.log2size, c.rd, c.wr
    )
}

fn stream(out: &mut impl Write, r: Row) -> io::Result<()> {
    let p = rows::parts_of(r);
    row(&mut *out, r, &p)?;
    writeln!(
        out,
        ", VMID {}, StreamID {}, Config {}",
        p.vmid, p.stream, p.config
    )
}

fn mapping(out: &mut impl Write, r: Row) -> io::Result<()> {
    let p = rows::parts_of(r);
    row(&mut *out, r, &p)?;
    write!(out, ", VMID {}, ASID {}, span {}, ", p.vmid, p.asid, p.span)?;
    writeln!(out, "from 0x{:x} to 0x{:x}", r.w2, r.w3)
}

// A row's words and its kind.
fn row(out: &mut impl Write, r: Row, p: &Parts) -> io::Result<()> {
    writeln!(
        out,
        "  words 0x{:x} 0x{:x} 0x{:x} 0x{:x}",
        r.w0, r.w1, r.w2, r.w3
    )?;
    let kind = match p.kind {
        Kind::Ste => "STE",
        Kind::Cd => "CD",
        Kind::Stage1 => "stage 1",
        Kind::Stage2 => "stage 2",
    };
    let last = if p.last { ", last-level" } else { "" };
    write!(out, "  {kind}{last}")
}

// The command, by its two words and by its fields.
fn waiting(out: &mut impl Write, queue: &[u8; 16]) -> io::Result<()> {
    let low = words::word_at(queue, 0);
    let high = words::word_at(queue, 8);
    write!(
        out,
        "the command that waits\n  words 0x{low:x} 0x{high:x}\n  "
    )?;
    match commands::decode(commands::features_of(scene::FEATURES), low, high) {
        Decoded::Legal(c) => legal(&mut *out, c),
        Decoded::Illegal(why) => illegal(&mut *out, why),
    }
}

fn illegal(out: &mut impl Write, why: Reason) -> io::Result<()> {
    match why {
        Reason::UnknownCode => writeln!(out, "illegal: unknown code"),
        Reason::FeatureAbsent => writeln!(out, "illegal: feature absent"),
        Reason::ReservedBit => writeln!(out, "illegal: Reserved bit set"),
        Reason::BadParameter => writeln!(out, "illegal: bad parameter"),
    }
}

fn legal(out: &mut impl Write, c: Command) -> io::Result<()> {
    let Command::TlbiNhVa(vmid, asid, target) = c else {
        return writeln!(out, "another command");
    };
    let leaf = u64::from(target.leaf);
    write!(out, "TLBI_NH_VA, VMID {vmid}, ASID {asid}, ")?;
    writeln!(out, "address 0x{:x}, Leaf {leaf}", target.page << 12)
}
