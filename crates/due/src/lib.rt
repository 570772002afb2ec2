// Document 01, One run, with document 02, T-11: the step, which makes the one store that is due. Nothing else of a run writes to
// lent memory.
#![tactic(auto)]

ghost use Rattle.std.specs.Prelude.{◌≡◌, true, false, ◌+◌, ◌-◌, ◌*◌, ◌^◌, ◌≤◌, ◌<◌, min, max, length};
ghost use Rattle.words.specs.Choice.{pick};
ghost use Rattle.words.specs.Search.{lowest};
ghost use Rattle.regions.specs.Table.{row_at};
ghost use Rattle.regions.specs.Scopes.{in_region};
ghost use Rattle.region_scopes.specs.Scopes.{is_regional};
ghost use Rattle.memory.specs.Lending.{lent};
ghost use Rattle.memory.specs.Memory.{both, rows_in, scoped_at, Whole};
ghost use Rattle.due.specs.Due.{Among, scanned, after_command, Ready, Made};
ghost use Rattle.commands.specs.declared.Decoded.TheVariants.{Legal};

use commands::{Command, Decoded, Features, Reason};
use memory::Tables;

// Document 02, T-09: what a raised error tells: why the command is illegal, and the slot that it is in.
#[derive(Clone, Copy)]
pub struct Raising {
    pub why: Reason,
    pub slot: u64,
}

// The one store that a step made.
#[derive(Clone, Copy)]
pub enum Stepped {
    Removed(usize),
    Consumed,
    DidRaise(Raising),
}

// How many rows need be looked at: a command that is not about the second table does not pay for it.
pub fn rows_for(c: Command, rows: usize, more: usize) -> usize
    requires { rows + more < 2 ^ 64 }
    ensures { result ≡ pick (is_regional c) (rows + more) rows }
{
    if region_scopes::is_regional(c) {
        return rows + more;
    }
    rows
}

// Of a 73: the lowest row from `from` on and below `to`, those of the second table being counted from `rows` on. Where its region
// begins and how long it is, is worked out once.
fn find_region(
    table: &[u64],
    rows: usize,
    page: u64,
    size: u64,
    leaf: bool,
    from: usize,
    to: usize,
) -> Option<usize>
    requires { (from ≤ to) × (min rows to ≤ from) × (2 * (to - rows) ≤ length table.now) }
    ensures { result ≡ lowest (λ i. in_region (row_at table.now (i - rows)) page size leaf) (to - from) from }
{
    let first = regions::address_of(page);
    let bytes = regions::length_of(size);
    words::lowest_in(from, to, |i| {
        let row = regions::row_at(table, i - rows);
        regions::in_region_of(row, first, bytes, page, size, leaf)
    })
}

// Of a command about the second table: no row before it is looked at.
fn find_second(m: Tables, f: Features, c: Command, from: usize, to: usize) -> Option<usize>
    requires { Among (lent m) from to × (is_regional c ≡ true) }
    ensures { result ≡ lowest (scoped_at f c (lent m.entry)) (to - from) from }
{
    let rows = m.kept.len() / 4;
    let start = from.max(rows.min(to));
    if let Command::DptiPa(page, size, leaf) = c {
        return find_region(m.table, rows, page, size, leaf, start, to);
    }
    words::lowest_in(start, to, |i| {
        let row = regions::row_at(m.table, i - rows);
        region_scopes::in_table(c, row)
    })
}

// Of any other: only rows that its screen lets through are asked, and none of the second table.
fn find_first(m: Tables, f: Features, c: Command, from: usize, to: usize) -> Option<usize>
    requires { Among (lent m) from to × (is_regional c ≡ false) }
    ensures { result ≡ lowest (scoped_at f c (lent m.entry)) (to - from) from }
{
    let s = scope_screens::screen_of(f, c);
    let end = (m.kept.len() / 4).min(to);
    let mut i = from;
    while i < end {
        let Some(row) = screens::next(m.kept, s, i, end) else {
            return None;
        };
        if scopes::in_scope(f, c, image::row_at(m.kept, row)) {
            return Some(row);
        }
        i = row + 1;
    }
    None
}

// The lowest row from `from` on and below `to` that is in scope.
pub fn find_in(m: Tables, f: Features, c: Command, from: usize, to: usize) -> Option<usize>
    requires { Among (lent m) from to }
    ensures { result ≡ lowest (scoped_at f c (lent m.entry)) (to - from) from }
{
    if !region_scopes::is_regional(c) {
        return find_first(m, f, c, from, to);
    }
    find_second(m, f, c, from, to)
}

// The lowest row from `from` on that is in scope. A command that is no invalidation is told before it is handed on.
fn find_from(kept: &[u64], table: &[u64], f: Features, c: Command, from: usize) -> Option<usize>
    requires { Whole (both kept.now table.now) × (from ≤ rows_in (both kept.now table.now)) }
    ensures { result ≡ scanned f c (both kept.now table.now) from }
{
    if !scopes::invalidates(c) {
        return None;
    }
    let rows = kept.len() / 4 + table.len() / 2;
    find_in(Tables { kept, table }, f, c, from, rows)
}

// The control word after a command is consumed: the interrupt of a CMD_SYNC with CS 1 is pending by the same store.
fn after_command(c: Command, w: u64) -> u64
    ensures { result ≡ after_command (Legal c) w }
{
    let next = control_stores::consumed(w);
    if commands::syncs_of(Decoded::Legal(c)) == 1 {
        return control_stores::pended(next, true);
    }
    next
}

// Makes the store that is due for the command d, of which no row below `from` is in scope. It is a part of a
// run and no call of the unit, so it may ask something of its caller.
pub fn step(kept: &mut [u64], table: &mut [u64], f: Features, d: Decoded, from: usize) -> Stepped
    requires { Ready f d from (both kept.old table.old) }
    ensures { Made f d (both kept.old table.old) (both kept.new table.new) result }
{
    match d {
        Decoded::Legal(c) => match find_from(&*kept, &*table, f, c, from) {
            Some(i) => {
                let rows = kept.len() / 4;
                if i < rows {
                    kept[4 * i + 1] = 0;
                    return Stepped::Removed(i);
                }
                table[2 * (i - rows)] = 0;
                Stepped::Removed(i)
            }
            None => {
                let w = kept[0];
                kept[0] = after_command(c, w);
                Stepped::Consumed
            }
        },
        Decoded::Illegal(why) => {
            let w = kept[0];
            let slot = control::slot_of(w);
            kept[0] = control_stores::raised(w);
            Stepped::DidRaise(Raising { why, slot })
        }
    }
}
