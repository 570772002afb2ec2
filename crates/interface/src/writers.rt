// What a C caller is told of the writers: document 02's numbers for the enums' cases.
ghost use Rattle.std.specs.Prelude.{◌≡◌};
ghost use Rattle.writer.specs.Writing.{fault_number};
ghost use Rattle.interface.specs.Writers.{write_refusal, batch_refusal};

use crate::{Reply, Tells, nothing};
use batch_writes::BatchRefusal;
use writer::{Fault, WriteRefusal};

fn fault_number(why: Fault) -> u64
    ensures { result ≡ fault_number why }
{
    match why {
        Fault::Missing => 20,
        Fault::Unfit => 21,
    }
}

impl Tells for WriteRefusal {
    ghost reply = { write_refusal };

    fn reply(self) -> Reply {
        match self {
            WriteRefusal::BadSlot => nothing(19),
            WriteRefusal::Bad(fault) => nothing(fault_number(fault)),
        }
    }
}

impl Tells for BatchRefusal {
    ghost reply = { batch_refusal };

    fn reply(self) -> Reply {
        match self {
            BatchRefusal::Image(why) => why.reply(),
            BatchRefusal::BadQueue => nothing(4),
            BatchRefusal::BadCommand(i, fault) => Reply {
                code: fault_number(fault),
                words: [i as u64, 0, 0, 0, 0, 0, 0, 0],
            },
            BatchRefusal::NoRoom => nothing(22),
        }
    }
}
