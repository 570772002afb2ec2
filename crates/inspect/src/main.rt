// For service staff after an incident: a dump of the kept memory, and of what is lent beside it, in words.
#![tactic(auto)]

mod args;
mod attribute_text;
mod files;
mod look;
mod plan;
mod queue_text;
mod record_text;
mod region_text;
mod row_text;
mod state_text;
mod usage;

use args::Args;
use files::{Dump, Words};
use std::alloc::Global;
use std::io;
use std::io::{BufWriter, Write};
use std::rt::Files;

fn main(rt: HostRuntime) -> io::Result<()> {
    let mut out = BufWriter::new(rt.alloc(), io::writer(&rt))?;
    let words = args::words(&rt, rt.alloc())?;
    match Args::of(&words) {
        Some(args) => inspect(&rt, rt.alloc(), &mut out, args)?,
        None => out.write_all(usage::TEXT)?,
    }
    out.flush()
}

// Reads the files. Of one that cannot be read, such as a folder, the system's reason is told before the next is opened, which may
// have to be waited for, and nothing else is.
fn inspect(
    rt: &(impl Files + Eprint + Alloc),
    alloc: Global,
    out: &mut impl Write,
    args: Args<'_>,
) -> io::Result<()> {
    let kept = files::read_words(rt, alloc, args.kept, files::KEPT);
    refusal_told(rt, Some(args.kept), &kept)?;
    let queue = args
        .queue
        .map(|name| files::read_bytes(rt, alloc, name, files::QUEUE_READ))
        .transpose();
    refusal_told(rt, args.queue, &queue)?;
    let table = args
        .table
        .map(|name| files::read_words(rt, alloc, name, files::TABLE))
        .transpose();
    refusal_told(rt, args.table, &table)?;
    let events = args
        .events
        .map(|name| files::read_words(rt, alloc, name, files::EVENTS))
        .transpose();
    refusal_told(rt, args.events, &events)?;
    if let (Ok(kept), Ok(queue), Ok(table), Ok(events)) = (kept, queue, table, events) {
        let dump = Dump {
            kept,
            queue,
            table,
            events,
        };
        told(alloc, &mut *out, &dump, args.features)?;
    }
    Ok(())
}

fn refusal_told<T>(
    rt: &(impl Eprint + Alloc),
    name: Option<&str>,
    read: &io::Result<T>,
) -> io::Result<()> {
    if let (Some(name), Err(why)) = (name, read) {
        text::fail(rt, name, why)?;
    }
    Ok(())
}

fn told(alloc: Global, out: &mut impl Write, dump: &Dump, given: Option<u64>) -> io::Result<()> {
    let features = args::features_told(&mut *out, given)?;
    let mut good = state_text::told(&mut *out, &dump.kept)?;
    if !dump.kept.words.is_empty() {
        row_text::told(&mut *out, &dump.kept.words)?;
    }
    good &= region_text::told(&mut *out, &dump.table)?;
    good &= record_text::told(&mut *out, &dump.events)?;
    good &= queue_text::told(&mut *out, &dump.queue, &dump.kept.words, features)?;
    let raised = match &dump.queue {
        Some(queue) => plan::told(alloc, &mut *out, dump, queue, features)?,
        None => false,
    };
    look::told(&mut *out, dump, features, good, raised)
}
