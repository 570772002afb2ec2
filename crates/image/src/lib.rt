// The kept memory: one control word, then rows of four words.
#![tactic(auto)]

ghost use Rattle.std.specs.Prelude.{◌≡◌, ◌+◌, ◌*◌, ◌≤◌, length};
ghost use Rattle.image.specs.Image.{row_at, is_bad, is_used, check, used_rows};

use rows::Row;

// The most rows.
pub const MAX_ROWS: usize = 1000;

// Why an image is refused: its length, its control word, or its lowest ill-formed row.
#[derive(Clone, Copy)]
pub enum Refusal {
    BadLength,
    BadControl,
    BadRow(usize),
}

// The four words of row i. It and `is_bad` have likes in `regions`: rows of other words, places and rules share no line but the search,
// and a trait of a row with its law would be longer than the two of them.
#[tactic(auto, unfolding(crate::specs::Image::row_at))]
pub fn row_at(kept: &[u64], i: usize) -> Row
    requires { 4 * i + 5 ≤ length kept.now }
    ensures { result ≡ row_at kept.now i }
{
    let at = 4 * i;
    Row {
        w0: kept[at + 1],
        w1: kept[at + 2],
        w2: kept[at + 3],
        w3: kept[at + 4],
    }
}

#[tactic(auto, unfolding(crate::specs::Image::is_bad))]
fn is_bad(kept: &[u64], i: usize) -> bool
    requires { 4 * i + 5 ≤ length kept.now }
    ensures { result ≡ is_bad kept.now i }
{
    !row_forms::well_formed(row_at(kept, i))
}

// The number of rows, or refusal 1, 2 or 3. The checks of `regions` and `events` ask other things in another order.
pub fn check(kept: &[u64]) -> Result<usize, Refusal>
    ensures { result ≡ check kept.now }
{
    let n = kept.len() / 4;
    if kept.len() != 1 + 4 * n {
        return Err(Refusal::BadLength);
    }
    if n < 1 {
        return Err(Refusal::BadLength);
    }
    if MAX_ROWS < n {
        return Err(Refusal::BadLength);
    }
    if !control::well_formed(kept[0]) {
        return Err(Refusal::BadControl);
    }
    match words::lowest_in(0, n, |i| is_bad(kept, i)) {
        Some(i) => Err(Refusal::BadRow(i)),
        None => Ok(n),
    }
}

#[tactic(auto, unfolding(crate::specs::Image::is_used, crate::specs::Image::row_at))]
fn is_used(kept: &[u64], i: usize) -> bool
    requires { 4 * i + 5 ≤ length kept.now }
    ensures { result ≡ is_used kept.now i }
{
    !(kept[4 * i + 1] == 0)
}

// How many of the first n rows are used.
pub fn used_rows(kept: &[u64], n: usize) -> usize
    requires { 4 * n + 1 ≤ length kept.now }
    ensures { result ≡ used_rows kept.now n }
{
    let mut used = 0;
    for i in 0..n {
        if is_used(kept, i) {
            used += 1;
        }
    }
    used
}
