// The second lent table: cached regions of the device permission table, rows of two words.
#![tactic(auto)]

mod fields;
mod places;
mod scopes;

ghost use Rattle.std.specs.Prelude.{◌≡◌, ◌+◌, ◌*◌, ◌≤◌, length};
ghost use Rattle.regions.specs.Table.{row_at, is_bad, check};

pub use fields::{bytes_of, is_last, size_code, well_formed};
pub use scopes::{address_of, in_all, in_region, in_region_of, length_of, names_region};

// The most rows.
pub const MAX_ROWS: usize = 128;

// The two words of a row.
#[derive(Clone, Copy)]
pub struct Region {
    pub w0: u64,
    pub w1: u64,
}

// Why a table is refused: its length, or its lowest ill-formed row.
#[derive(Clone, Copy)]
pub enum Refusal {
    BadLength,
    BadRow(usize),
}

// The two words of row i.
#[tactic(auto, unfolding(crate::specs::Table::row_at))]
pub fn row_at(table: &[u64], i: usize) -> Region
    requires { 2 * i + 2 ≤ length table.now }
    ensures { result ≡ row_at table.now i }
{
    let at = 2 * i;
    Region {
        w0: table[at],
        w1: table[at + 1],
    }
}

#[tactic(auto, unfolding(crate::specs::Table::is_bad))]
fn is_bad(table: &[u64], i: usize) -> bool
    requires { 2 * i + 2 ≤ length table.now }
    ensures { result ≡ is_bad table.now i }
{
    !well_formed(row_at(table, i))
}

// The number of rows, or refusal 13 or 14.
pub fn check(table: &[u64]) -> Result<usize, Refusal>
    ensures { result ≡ check table.now }
{
    let n = table.len() / 2;
    if table.len() != 2 * n {
        return Err(Refusal::BadLength);
    }
    if n < 1 {
        return Err(Refusal::BadLength);
    }
    if MAX_ROWS < n {
        return Err(Refusal::BadLength);
    }
    match words::lowest_in(0, n, |i| is_bad(table, i)) {
        Some(i) => Err(Refusal::BadRow(i)),
        None => Ok(n),
    }
}
