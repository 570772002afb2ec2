// The night step by step. Every sentence is chosen by the words that the unit left.
use crate::scene;
use script::{Answer, Call, World};
use std::io;
use std::io::Write;

// An allowance that the night's one command doesn't use up.
const ENOUGH: u64 = 8;

fn run(out: &mut impl Write, kept: &mut [u64; 9], allowance: u64) -> io::Result<()> {
    let run = Call::Run {
        features: scene::FEATURES,
        allowance,
    };
    let reply = run.make(World {
        kept,
        table: &mut [0; 2],
        queue: &scene::QUEUE,
    });
    let Ok(Answer::Ran(ran)) = reply else {
        return writeln!(out, "refused");
    };
    write!(
        out,
        "ended {}: commands consumed {}, ",
        ran.end, ran.consumed
    )?;
    writeln!(
        out,
        "stores {}, rows removed {}, syncs {}",
        ran.stores, ran.removed, ran.syncs
    )
}

// RD, the mapping, the command and the other row, as the memory has them now.
fn state(out: &mut impl Write, kept: &[u64; 9]) -> io::Result<()> {
    let before = scene::MEMORY;
    let rd = control::rd_of(kept[0]);
    let row = kept[5];
    let is_passed = rd != control::rd_of(before[0]);
    let is_valid = row != 0;
    let passed = if is_passed { "passed" } else { "not passed" };
    let valid = if is_valid { "still valid" } else { "gone" };
    let fire = yes(is_passed & is_valid);
    let same = yes(kept[1..5] == before[1..5]);
    writeln!(out, "  RD {rd}: RD has {passed} the command")?;
    writeln!(out, "  row 1, word 0 is 0x{row:x}: the mapping is {valid}")?;
    writeln!(
        out,
        "  RD has passed the command and the mapping is still valid: {fire}"
    )?;
    writeln!(out, "  row 0 is as it was at the start: {same}")
}

fn yes(is_so: bool) -> &'static str {
    if is_so { "yes" } else { "no" }
}

// Answers the memory that the run leaves.
pub fn uncut(out: &mut impl Write) -> io::Result<[u64; 9]> {
    let mut kept = scene::MEMORY;
    write!(out, "\nNo power cut: allowance {ENOUGH}\n  ")?;
    run(&mut *out, &mut kept, ENOUGH)?;
    state(&mut *out, &kept)?;
    Ok(kept)
}

pub fn cut(out: &mut impl Write, allowance: u64, whole: &[u64; 9]) -> io::Result<()> {
    let mut kept = scene::MEMORY;
    write!(out, "\nAllowance {allowance}\n  ")?;
    run(&mut *out, &mut kept, allowance)?;
    state(&mut *out, &kept)?;
    write!(out, "  called again: ")?;
    ended(&mut *out, &mut kept, whole)
}

// What is found where RD is stored first, and what the unit makes of it.
pub fn rd_first(out: &mut impl Write, stores: u64, whole: &[u64; 9]) -> io::Result<()> {
    let mut kept = scene::rd_first(stores, whole);
    writeln!(
        out,
        "\nThe fire night's order, RD first: power for {stores} of the two stores"
    )?;
    state(&mut *out, &kept)?;
    write!(out, "  the unit, called then: ")?;
    ended(&mut *out, &mut kept, whole)
}

// A run with enough, and whether it leaves what the night without a cut leaves.
fn ended(out: &mut impl Write, kept: &mut [u64; 9], whole: &[u64; 9]) -> io::Result<()> {
    run(&mut *out, &mut *kept, ENOUGH)?;
    writeln!(
        out,
        "  the same memory as with no cut: {}",
        yes(*kept == *whole)
    )
}
