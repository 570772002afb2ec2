// What a C caller is told of the second table: document 02's numbers for the enums' cases.
ghost use Rattle.interface.specs.Tables.{table_fill_refusal};

use crate::{Reply, Tells, nothing};
use region_fills::FillRefusal;

impl Tells for FillRefusal {
    ghost reply = { table_fill_refusal };

    fn reply(self) -> Reply {
        match self {
            FillRefusal::Image(why) => why.reply(),
            FillRefusal::Table(why) => why.reply(),
            FillRefusal::NoSuchRow => nothing(7),
            FillRefusal::RowInUse => nothing(8),
            FillRefusal::Unfit => nothing(9),
        }
    }
}
