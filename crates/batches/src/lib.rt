// Document 02, T-12: whether a proposed batch of invalidations leaves the rows that the original does. Nothing is stored and nothing
// is copied: marks say which rows of a block went.
#![tactic(auto)]

mod blocks;
mod commands_of;

ghost use Rattle.std.specs.Prelude.{◌≡◌};
ghost use Rattle.memory.specs.Lending.{lent};
ghost use Rattle.memory.specs.Memory.{both};
ghost use Rattle.batches.specs.Batches.{is_whole, judged, check};

use commands::Features;
use image::Refusal;
use memory::Tables;

// The two batches that are compared.
#[derive(Clone, Copy)]
pub enum Batch {
    Original,
    Proposed,
}

// Why a check is refused: the image, the second table, or the length of a batch.
#[derive(Clone, Copy)]
pub enum CheckRefusal {
    Image(Refusal),
    Table(regions::Refusal),
    BadBatch,
}

// Yes; or the first command that doesn't qualify, or the lowest row that differs.
#[derive(Clone, Copy)]
pub enum Comparison {
    Same,
    Unfit(Batch, usize),
    Differ(usize),
}

impl From<Refusal> for CheckRefusal {
    ghost use Rattle.batches.specs.declared.CheckRefusal.{CheckRefusal};

    ghost from_gives = { λ why e. e ≡ CheckRefusal.Image why };

    fn from(why: Refusal) -> CheckRefusal {
        CheckRefusal::Image(why)
    }
}

impl From<regions::Refusal> for CheckRefusal {
    ghost use Rattle.batches.specs.declared.CheckRefusal.{CheckRefusal};

    ghost from_gives = { λ why e. e ≡ CheckRefusal.Table why };

    fn from(why: regions::Refusal) -> CheckRefusal {
        CheckRefusal::Table(why)
    }
}

fn is_whole(batch: &[u8]) -> bool
    ensures { result ≡ is_whole batch.now }
{
    batch.len() % 16 == 0
}

fn judge(m: Tables, original: &[u8], proposed: &[u8], f: Features) -> Comparison
    ensures { result ≡ judged f original.now proposed.now (lent m.entry) }
{
    let first = commands_of::first_unfit(f, original);
    if let Some(k) = first {
        return Comparison::Unfit(Batch::Original, k);
    }
    let second = commands_of::first_unfit(f, proposed);
    if let Some(k) = second {
        return Comparison::Unfit(Batch::Proposed, k);
    }
    match blocks::lowest_apart(m, f, original, proposed) {
        Some(i) => Comparison::Differ(i),
        None => Comparison::Same,
    }
}

// Whether both batches, carried out in full from this memory, leave the same rows.
pub fn check(
    kept: &[u64],
    table: &[u64],
    original: &[u8],
    proposed: &[u8],
    f: Features,
) -> Result<Comparison, CheckRefusal>
    ensures { result ≡ check f original.now proposed.now (both kept.now table.now) }
{
    image::check(kept)?;
    regions::check(table)?;
    if !(is_whole(original) & is_whole(proposed)) {
        return Err(CheckRefusal::BadBatch);
    }
    Ok(judge(Tables { kept, table }, original, proposed, f))
}
