// Filling a row of the second lent table: the base is stored first and word 0 last, so that a row is seen whole or not at all.
#![tactic(auto)]

ghost use Rattle.std.specs.Prelude.{◌≡◌, ◌+◌, ◌*◌, ◌^◌, ◌≤◌, length};
ghost use Rattle.words.specs.Outcomes.{Gives};
ghost use Rattle.region_fills.specs.declared.FillRefusal.TheVariants.{Image, Table};
ghost use Rattle.region_fills.specs.Fills.{fill_stores, fit, fill_row, fill};

use fills::Filling;
use regions::Region;
use stores::Store;

// Why a fill is refused.
#[derive(Clone, Copy)]
pub enum FillRefusal {
    Image(image::Refusal),
    Table(regions::Refusal),
    NoSuchRow,
    RowInUse,
    Unfit,
}

impl From<image::Refusal> for FillRefusal {
    ghost from_gives = { λ why e. e ≡ Image why };

    fn from(why: image::Refusal) -> FillRefusal {
        FillRefusal::Image(why)
    }
}

impl From<regions::Refusal> for FillRefusal {
    ghost from_gives = { λ why e. e ≡ Table why };

    fn from(why: regions::Refusal) -> FillRefusal {
        FillRefusal::Table(why)
    }
}

// Whether a row may hold these words: well formed, and not empty.
#[tactic(auto, unfolding(crate::specs::Fills::fit))]
fn is_fit(words: Region) -> bool
    ensures { result ≡ fit words }
{
    regions::well_formed(words) & !(words.w0 == 0)
}

// The stores of a fill in their order: the base, and last word 0, which makes the row a used one.
fn fill_stores(row: usize, words: Region) -> [Store; 2]
    requires { 2 * row + 2 ≤ 2 ^ 64 }
    ensures { result ≡ fill_stores row words }
{
    [
        Store {
            at: 2 * row + 1,
            value: words.w1,
        },
        Store {
            at: 2 * row,
            value: words.w0,
        },
    ]
}

// Fills an empty row of a table of n rows with fit words.
fn fill_row(
    table: &mut [u64],
    n: usize,
    row: usize,
    words: Region,
    allowance: u64,
) -> Result<Filling, FillRefusal>
    requires { 2 * n ≤ length table.old }
    ensures { Gives (fill_row table.old n row words allowance) table.new result }
{
    if n <= row {
        return Err(FillRefusal::NoSuchRow);
    }
    if table[2 * row] != 0 {
        return Err(FillRefusal::RowInUse);
    }
    if !is_fit(words) {
        return Err(FillRefusal::Unfit);
    }
    let due = fill_stores(row, words);
    let done = fills::steps(&mut *table, &due, allowance);
    Ok(done)
}

// The kept memory is only checked, as by every call.
pub fn fill(
    kept: &[u64],
    table: &mut [u64],
    row: usize,
    words: Region,
    allowance: u64,
) -> Result<Filling, FillRefusal>
    ensures { Gives (fill kept.now table.old row words allowance) table.new result }
{
    image::check(kept)?;
    let n = regions::check(&*table)?;
    fill_row(&mut *table, n, row, words, allowance)
}
