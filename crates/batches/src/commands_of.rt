// Which commands of a batch qualify.
ghost use Rattle.std.specs.Prelude.{◌≡◌};
ghost use Rattle.batches.specs.Batches.{qualifies, unfit};

use commands::{Decoded, Features};

fn qualifies(d: Decoded) -> bool
    ensures { result ≡ qualifies d }
{
    match d {
        Decoded::Legal(c) => scopes::invalidates(c),
        Decoded::Illegal(_) => false,
    }
}

// The first command of a batch that doesn't qualify.
#[tactic(auto, unfolding(crate::specs::Batches::unfit))]
pub fn first_unfit(f: Features, batch: &[u8]) -> Option<usize>
    ensures { result ≡ unfit f batch.now }
{
    let n = batch.len() / 16;
    words::lowest_in(0, n, |k| !qualifies(commands::decode_at(f, batch, k)))
}
