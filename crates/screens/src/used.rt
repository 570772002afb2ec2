// Used rows by a test. After commands have removed rows, often none of eight is used, and then nothing else need be asked of them.
ghost use Rattle.std.specs.Prelude.{◌≡◌, ◌+◌, ◌*◌, ◌≤◌, false, ◌&&◌, ◌||◌, length};
ghost use Rattle.image.specs.Image.{row_at};
ghost use Rattle.screens.specs.Screens.{used, any_four, NoneOfEight, lowest_from, Within};

use crate::scan::{self, RowTest, four};
use rows::Row;

#[derive(Clone, Copy)]
struct InUse {}

impl RowTest for InUse {
    ghost passes = { λ t row. used row };

    fn passes(&self, row: Row) -> bool {
        row.w0 != 0
    }
}

// Whether one of the eight rows from row i on is used. One row tells most groups, so it is asked alone first.
fn eight(kept: &[u64], i: usize) -> bool
    requires { 4 * i + 33 ≤ length kept.now }
    ensures { result ≡ (any_four (λ j. used (row_at kept.now j)) i || any_four (λ j. used (row_at kept.now j)) (i + 4)) }
{
    let used = InUse {};
    if used.passes(image::row_at(kept, i)) {
        return true;
    }
    four(kept, &used, i) | four(kept, &used, i + 4)
}

// A used row that passes.
#[derive(Clone, Copy)]
pub struct Used<T> {
    pub test: T,
}

impl<T: RowTest> RowTest for Used<T> {
    ghost passes = { λ t row. used row && T.passes t.test row };

    fn passes(&self, row: Row) -> bool {
        let used = InUse {};
        used.passes(row) & self.test.passes(row)
    }
}

// Whether one of the eight may be one.
fn eight_passing<T: RowTest>(kept: &[u64], test: &T, i: usize) -> bool
    requires { 4 * i + 33 ≤ length kept.now }
    ensures { result ≡ false → NoneOfEight (λ j. used (row_at kept.now j) && T.passes test.now (row_at kept.now j)) i }
{
    if !eight(kept, i) {
        return false;
    }
    scan::eight(kept, test, i)
}

// The lowest row from `from` on, and below `to`, that is one.
fn next<T: RowTest>(kept: &[u64], test: &Used<T>, from: usize, to: usize) -> Option<usize>
    requires { Within kept.now from to }
    ensures { result ≡ lowest_from (λ j. used (row_at kept.now j) && T.passes test.now.test (row_at kept.now j)) from to }
{
    let at = scan::skip(from, to, |i| eight_passing(kept, &test.test, i));
    words::lowest_in(at, to, |i| test.passes(image::row_at(kept, i)))
}

// Of those, the lowest that passes a second test. Few rows are such, so that is asked behind the first.
pub fn next_of_both<T: RowTest, U: RowTest>(
    kept: &[u64],
    test: &Used<T>,
    second: &U,
    from: usize,
    to: usize,
) -> Option<usize>
    requires { Within kept.now from to }
    ensures { result ≡ lowest_from (λ j. (used (row_at kept.now j) && T.passes test.now.test (row_at kept.now j)) && U.passes second.now (row_at kept.now j)) from to }
{
    words::lowest_among(
        from,
        to,
        |i| next(kept, test, i, to),
        |i| second.passes(image::row_at(kept, i)),
    )
}
