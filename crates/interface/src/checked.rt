// What a C caller of the batch check is told: document 02's numbers for the enums' cases.
ghost use Rattle.std.specs.Prelude.{◌≡◌};
ghost use Rattle.interface.specs.Checked.{which_number, check_refusal, comparison_reply};

use crate::{Reply, Tells, nothing};
use batches::{Batch, CheckRefusal, Comparison};

fn which_number(b: Batch) -> u64
    ensures { result ≡ which_number b }
{
    match b {
        Batch::Original => 0,
        Batch::Proposed => 1,
    }
}

impl Tells for CheckRefusal {
    ghost reply = { check_refusal };

    fn reply(self) -> Reply {
        match self {
            CheckRefusal::Image(why) => why.reply(),
            CheckRefusal::Table(why) => why.reply(),
            CheckRefusal::BadBatch => nothing(23),
        }
    }
}

impl Tells for Comparison {
    ghost reply = { comparison_reply };

    fn reply(self) -> Reply {
        match self {
            Comparison::Same => nothing(0),
            Comparison::Unfit(b, k) => Reply {
                code: 0,
                words: [1, which_number(b), k as u64, 0, 0, 0, 0, 0],
            },
            Comparison::Differ(i) => Reply {
                code: 0,
                words: [2, i as u64, 0, 0, 0, 0, 0, 0],
            },
        }
    }
}
