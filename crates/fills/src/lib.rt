// Filling a row: its four words stored one at a time, word 0 last, so that a row is seen whole or not at all.
#![tactic(auto)]

ghost use Rattle.std.specs.Prelude.{◌≡◌, ◌+◌, ◌*◌, ◌^◌, ◌≤◌, length};
ghost use Rattle.words.specs.Outcomes.{Gives};
ghost use Rattle.fills.specs.declared.FillRefusal.TheVariants.{Image};
ghost use Rattle.stores.specs.Stores.{Within, after_stores};
ghost use Rattle.fills.specs.Fills.{fill_stores, fit, report_of, fill};

use rows::Row;
use stores::Store;

// How a fill ends: C has a number for each, so it is no Result.
#[derive(Clone, Copy)]
pub enum FillEnd {
    Filled,
    Cut,
}

// What a fill reports.
#[derive(Clone, Copy)]
pub struct Filling {
    pub end: FillEnd,
    pub stores: u64,
}

// Why a fill is refused.
#[derive(Clone, Copy)]
pub enum FillRefusal {
    Image(image::Refusal),
    NoSuchRow,
    RowInUse,
    Unfit,
    Doubled,
}

impl From<image::Refusal> for FillRefusal {
    ghost from_gives = { λ why e. e ≡ Image why };

    fn from(why: image::Refusal) -> FillRefusal {
        FillRefusal::Image(why)
    }
}

// Whether a row may hold these words: well formed, and not empty.
#[tactic(auto, unfolding(crate::specs::Fills::fit))]
fn is_fit(words: Row) -> bool
    ensures { result ≡ fit words }
{
    row_forms::well_formed(words) & !(words.w0 == 0)
}

// The stores of a fill in their order: words 1, 2 and 3, and last word 0, which makes the row a used one.
fn fill_stores(row: usize, words: Row) -> [Store; 4]
    requires { 4 * row + 5 ≤ 2 ^ 64 }
    ensures { result ≡ fill_stores row words }
{
    [
        Store {
            at: 4 * row + 2,
            value: words.w1,
        },
        Store {
            at: 4 * row + 3,
            value: words.w2,
        },
        Store {
            at: 4 * row + 4,
            value: words.w3,
        },
        Store {
            at: 4 * row + 1,
            value: words.w0,
        },
    ]
}

// Makes the stores of a fill in their order, while the allowance lasts.
pub fn steps(kept: &mut [u64], due: &[Store], allowance: u64) -> Filling
    requires { Within (length kept.old) due.now }
    ensures reports { result ≡ report_of (length due.now) allowance }
    ensures leaves { kept.new ≡ after_stores allowance due.now kept.old }
{
    let made = stores::make(&mut *kept, due, allowance);
    if made < due.len() as u64 {
        return Filling {
            end: FillEnd::Cut,
            stores: made,
        };
    }
    Filling {
        end: FillEnd::Filled,
        stores: made,
    }
}

// Fills an empty row of an accepted image with fit words that no row doubles.
pub fn fill(
    kept: &mut [u64],
    row: usize,
    words: Row,
    allowance: u64,
) -> Result<Filling, FillRefusal>
    ensures { Gives (fill kept.old row words allowance) kept.new result }
{
    let n = image::check(&*kept)?;
    if n <= row {
        return Err(FillRefusal::NoSuchRow);
    }
    if kept[4 * row + 1] != 0 {
        return Err(FillRefusal::RowInUse);
    }
    if !is_fit(words) {
        return Err(FillRefusal::Unfit);
    }
    if doubles::doubled(&*kept, n, words) {
        return Err(FillRefusal::Doubled);
    }
    let due = fill_stores(row, words);
    let done = steps(&mut *kept, &due, allowance);
    Ok(done)
}
