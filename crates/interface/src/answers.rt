// What a C caller is told: the papers' numbers for the enums' cases.
ghost use Rattle.std.specs.Prelude.{◌≡◌};
ghost use Rattle.commands.specs.Decoding.{reason_number};
ghost use Rattle.runs.specs.Running as running;
ghost use Rattle.fills.specs.Fills as fills;
ghost use Rattle.interface.specs.Replies.{bit_of, image_reply, table_reply, reason_in, slot_in, run_refusal, ran_reply, fill_refusal, filling_reply, doorbell_refusal, acknowledge_refusal, clear_refusal, miss_number, outcome_reply, transaction_refusal, is_reply};

use crate::{Reply, Tells, nothing};
use commands::Reason;
use control_calls::{AcknowledgeRefusal, ClearRefusal, DoorbellRefusal};
use fills::{FillEnd, FillRefusal, Filling};
use image::Refusal;
use image_state::State;
use runs::{End, Ran, RunRefusal};
use transactions::{Miss, Outcome, TransactionRefusal};

fn bit_of(on: bool) -> u64
    ensures { result ≡ bit_of on }
{
    u64::from(on)
}

impl Tells for Refusal {
    ghost reply = { image_reply };

    fn reply(self) -> Reply {
        match self {
            Refusal::BadLength => nothing(1),
            Refusal::BadControl => nothing(2),
            Refusal::BadRow(i) => Reply {
                code: 3,
                words: [i as u64, 0, 0, 0, 0, 0, 0, 0],
            },
        }
    }
}

// Document 02, T-11: why the second table is refused.
impl Tells for regions::Refusal {
    ghost reply = { table_reply };

    fn reply(self) -> Reply {
        match self {
            regions::Refusal::BadLength => nothing(13),
            regions::Refusal::BadRow(i) => Reply {
                code: 14,
                words: [i as u64, 0, 0, 0, 0, 0, 0, 0],
            },
        }
    }
}

fn end_number(e: End) -> u64
    ensures { result ≡ running.end_number e }
{
    match e {
        End::Off => 0,
        End::Held => 1,
        End::Empty => 2,
        End::Raised(_) => 3,
        End::Cut => 4,
    }
}

// Document 02, T-09: why a command is illegal, by its number.
fn reason_number(why: Reason) -> u64
    ensures { result ≡ reason_number why }
{
    match why {
        Reason::UnknownCode => 1,
        Reason::FeatureAbsent => 2,
        Reason::ReservedBit => 3,
        Reason::BadParameter => 4,
    }
}

// What a raised error tells: its reason and its slot, and 0 where none was raised.
fn reason_in(e: End) -> u64
    ensures { result ≡ reason_in e }
{
    match e {
        End::Raised(told) => {
            let why = told.why;
            reason_number(why)
        }
        _ => 0,
    }
}

fn slot_in(e: End) -> u64
    ensures { result ≡ slot_in e }
{
    match e {
        End::Raised(told) => told.slot,
        _ => 0,
    }
}

impl Tells for RunRefusal {
    ghost reply = { run_refusal };

    fn reply(self) -> Reply {
        match self {
            RunRefusal::Image(why) => why.reply(),
            RunRefusal::Table(why) => why.reply(),
            RunRefusal::BadQueue => nothing(4),
        }
    }
}

impl Tells for Ran {
    ghost reply = { ran_reply };

    fn reply(self) -> Reply {
        let ran = self;
        let e = ran.end;
        Reply {
            code: 0,
            words: [
                end_number(e),
                ran.consumed,
                ran.stores,
                ran.removed,
                ran.syncs,
                reason_in(e),
                slot_in(e),
                0,
            ],
        }
    }
}

fn fill_end_number(e: FillEnd) -> u64
    ensures { result ≡ fills.end_number e }
{
    match e {
        FillEnd::Filled => 0,
        FillEnd::Cut => 1,
    }
}

impl Tells for FillRefusal {
    ghost reply = { fill_refusal };

    fn reply(self) -> Reply {
        match self {
            FillRefusal::Image(why) => why.reply(),
            FillRefusal::NoSuchRow => nothing(7),
            FillRefusal::RowInUse => nothing(8),
            FillRefusal::Unfit => nothing(9),
            FillRefusal::Doubled => nothing(11),
        }
    }
}

// Of either table.
impl Tells for Filling {
    ghost reply = { filling_reply };

    fn reply(self) -> Reply {
        let filling = self;
        let e = filling.end;
        Reply {
            code: 0,
            words: [fill_end_number(e), filling.stores, 0, 0, 0, 0, 0, 0],
        }
    }
}

impl Tells for DoorbellRefusal {
    ghost reply = { doorbell_refusal };

    fn reply(self) -> Reply {
        match self {
            DoorbellRefusal::Image(why) => why.reply(),
            DoorbellRefusal::BadIndex => nothing(5),
        }
    }
}

impl Tells for AcknowledgeRefusal {
    ghost reply = { acknowledge_refusal };

    fn reply(self) -> Reply {
        match self {
            AcknowledgeRefusal::Image(why) => why.reply(),
            AcknowledgeRefusal::NoError => nothing(6),
        }
    }
}

impl Tells for ClearRefusal {
    ghost reply = { clear_refusal };

    fn reply(self) -> Reply {
        match self {
            ClearRefusal::Image(why) => why.reply(),
            ClearRefusal::NotPending => nothing(12),
        }
    }
}

fn miss_number(miss: Miss) -> u64
    ensures { result ≡ miss_number miss }
{
    match miss {
        Miss::Ste => 2,
        Miss::Cd => 3,
        Miss::Stage1 => 4,
        Miss::Stage2 => 5,
    }
}

impl Tells for Outcome {
    ghost reply = { outcome_reply };

    fn reply(self) -> Reply {
        match self {
            Outcome::Translated(out) => {
                let a = out.attributes;
                Reply {
                    code: 0,
                    words: [
                        0,
                        out.address,
                        a.memattr,
                        a.sh,
                        a.hints,
                        bit_of(out.instruction),
                        bit_of(out.privileged),
                        0,
                    ],
                }
            }
            Outcome::Abort => Reply {
                code: 0,
                words: [1, 0, 0, 0, 0, 0, 0, 0],
            },
            Outcome::Missed(miss) => Reply {
                code: 0,
                words: [miss_number(miss), 0, 0, 0, 0, 0, 0, 0],
            },
        }
    }
}

impl Tells for TransactionRefusal {
    ghost reply = { transaction_refusal };

    fn reply(self) -> Reply {
        match self {
            TransactionRefusal::Image(why) => why.reply(),
            TransactionRefusal::IllFormed => nothing(10),
        }
    }
}

impl Tells for State {
    ghost reply = { is_reply };

    fn reply(self) -> Reply {
        let s = self;
        Reply {
            code: 0,
            words: [
                s.rd,
                s.wr,
                s.err,
                bit_of(s.active),
                bit_of(s.enabled),
                s.used,
                0,
                0,
            ],
        }
    }
}
