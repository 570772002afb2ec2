// Which rows go by a batch, for a block of rows at a time: each command is decoded once for the block, and the marks need no more
// room where there are more rows.
ghost use Rattle.std.specs.Prelude.{◌≡◌, false, ◌+◌, ◌-◌, ◌^◌, ◌≤◌, ◌<◌, length};
ghost use Rattle.words.specs.Search.{lowest};
ghost use Rattle.memory.specs.Lending.{lent};
ghost use Rattle.memory.specs.Memory.{rows_in, scoped_at};
ghost use Rattle.batches.specs.Blocks.{taken, one, apart, block_rows, in_block, mark, Marks, AddsBelow, Adds};

use commands::{Command, Decoded, Features};
use memory::Tables;

const BLOCK: usize = 256;

// How many rows a block from row base on has.
fn rows_in(rows: usize, base: usize) -> usize
    ensures { result ≡ in_block rows base }
{
    rows.saturating_sub(base).min(BLOCK)
}

// Marks the rows of the block, below `rows`, that a command has in scope.
fn mark_rows(m: Tables, f: Features, c: Command, base: usize, rows: usize, marks: &mut [bool])
    requires { (rows ≤ rows_in (lent m)) × (length marks.old ≡ block_rows) }
    ensures { AddsBelow rows base (scoped_at f c (lent m.entry)) marks.old marks.new }
{
    let end = base + rows_in(rows, base);
    // No `for`: each search goes on behind the row that the last one found.
    let mut i = base;
    while i < end {
        let Some(row) = due::find_in(m, f, c, i, end) else {
            return;
        };
        marks[row - base] = true;
        i = row + 1;
    }
}

// Those of any command: an idle one has none, and only one about the second table has rows there.
fn mark_command(m: Tables, f: Features, d: Decoded, base: usize, marks: &mut [bool])
    requires { length marks.old ≡ block_rows }
    ensures { Adds f d (lent m.entry) base marks.old marks.new }
{
    if let Decoded::Legal(c) = d {
        if !scopes::idle(f, c) {
            let rows = due::rows_for(c, m.kept.len() / 4, m.table.len() / 2);
            mark_rows(m, f, c, base, rows, &mut *marks);
        }
    }
}

// Those of a whole batch.
fn mark_batch(m: Tables, f: Features, batch: &[u8], base: usize, marks: &mut [bool])
    requires { (length marks.old ≡ block_rows) × Marks (lent m) base (λ i. false) marks.old }
    ensures { Marks (lent m.entry) base (taken f batch.now (lent m.entry)) marks.new }
{
    let n = batch.len() / 16;
    for k in 0..n {
        let d = commands::decode_at(f, batch, k);
        mark_command(m, f, d, base, &mut *marks);
    }
}

// The lowest of the n rows from row base on that one of two batches alone removes, by their marks.
fn first_apart(a: &[bool], b: &[bool], base: usize, n: usize) -> Option<usize>
    requires { (n ≤ length a.now) × (n ≤ length b.now) × (base + n < 2 ^ 64) }
    ensures { result ≡ lowest (λ i. one (mark a.now (i - base)) (mark b.now (i - base))) n base }
{
    words::lowest_in(base, base + n, |i| a[i - base] ^ b[i - base])
}

fn compare_block(
    m: Tables,
    f: Features,
    original: &[u8],
    proposed: &[u8],
    base: usize,
    n: usize,
) -> Option<usize>
    requires { (n ≤ block_rows) × (base + n ≤ rows_in (lent m)) }
    ensures { result ≡ lowest (apart f original.now proposed.now (lent m.entry)) n base }
{
    let mut a = [false; BLOCK];
    mark_batch(m, f, original, base, &mut a);
    let mut b = [false; BLOCK];
    mark_batch(m, f, proposed, base, &mut b);
    first_apart(&a, &b, base, n)
}

// The lowest row that one of two batches alone removes.
pub fn lowest_apart(m: Tables, f: Features, original: &[u8], proposed: &[u8]) -> Option<usize>
    ensures { result ≡ lowest (apart f original.now proposed.now (lent m.entry)) (rows_in (lent m.entry)) 0 }
{
    let rows = m.kept.len() / 4 + m.table.len() / 2;
    // No `for`: a count of blocks would stand beside the row that each begins with.
    let mut base = 0;
    while base < rows {
        let n = rows_in(rows, base);
        let found = compare_block(m, f, original, proposed, base, n);
        if let Some(row) = found {
            return Some(row);
        }
        base += n;
    }
    None
}
