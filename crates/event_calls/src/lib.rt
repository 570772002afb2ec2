// The recorder's calls: a record is written word by word and shown by the index word last, so that it is seen whole or not at all.
// Reading the oldest and acknowledging an overflow make one store each, or none.
#![tactic(auto)]

ghost use Rattle.std.specs.Prelude.{◌≡◌, ◌+◌, ◌*◌, ◌^◌, ◌≤◌, ◌<◌, length};
ghost use Rattle.stores.specs.Stores.{Within};
ghost use Rattle.words.specs.Outcomes.{Gives};
ghost use Rattle.events.specs.Events.{index_of};
ghost use Rattle.event_calls.specs.declared.ReadRefusal.TheVariants.{Recorder as OfRecorder};
ghost use Rattle.event_calls.specs.declared.AcknowledgeRefusal.TheVariants.{Recorder as ByRecorder};
ghost use Rattle.event_calls.specs.Calls.{write_stores, drop_stores, Stores, write, read, acknowledge};

use events::Record;
use stores::Store;

// How a write ends: C has a number for each, so it is no Result.
#[derive(Clone, Copy)]
pub enum WriteEnd {
    Stored,
    Dropped,
    Cut,
}

// What a write reports.
#[derive(Clone, Copy)]
pub struct Writing {
    pub end: WriteEnd,
    pub stores: u64,
}

// Why a read is refused: the recorder, or no record that waits.
#[derive(Clone, Copy)]
pub enum ReadRefusal {
    Recorder(events::Refusal),
    Empty,
}

impl From<events::Refusal> for ReadRefusal {
    ghost from_gives = { λ why e. e ≡ OfRecorder why };

    fn from(why: events::Refusal) -> ReadRefusal {
        ReadRefusal::Recorder(why)
    }
}

// Why an acknowledge is refused: the recorder, or no overflow that is outstanding.
#[derive(Clone, Copy)]
pub enum AcknowledgeRefusal {
    Recorder(events::Refusal),
    NoOverflow,
}

impl From<events::Refusal> for AcknowledgeRefusal {
    ghost from_gives = { λ why e. e ≡ ByRecorder why };

    fn from(why: events::Refusal) -> AcknowledgeRefusal {
        AcknowledgeRefusal::Recorder(why)
    }
}

// The stores of a record in their order: the slot's four words, and last the index word, by which the record is one that waits.
fn write_stores(slot: usize, event: Record, index: u64) -> [Store; 5]
    requires { 4 * slot + 5 ≤ 2 ^ 64 }
    ensures { result ≡ write_stores slot event index }
{
    [
        Store {
            at: 4 * slot + 1,
            value: event.w0,
        },
        Store {
            at: 4 * slot + 2,
            value: event.w1,
        },
        Store {
            at: 4 * slot + 3,
            value: event.w2,
        },
        Store {
            at: 4 * slot + 4,
            value: event.w3,
        },
        Store {
            at: 0,
            value: index,
        },
    ]
}

// Makes the stores of a write in their order, while the allowance lasts; with all of them made it ends as is said.
fn steps(kept: &mut [u64], due: &[Store], end: WriteEnd, allowance: u64) -> Writing
    requires { Within (length kept.old) due.now }
    ensures { Stores due.now end allowance kept.old kept.new result }
{
    let made = stores::make(&mut *kept, due, allowance);
    if made < due.len() as u64 {
        return Writing {
            end: WriteEnd::Cut,
            stores: made,
        };
    }
    Writing {
        end: end,
        stores: made,
    }
}

// Drops a record of a full ring: the flag shows an overflow that is outstanding already, or is flipped to show one.
fn drop_one(kept: &mut [u64], allowance: u64) -> Writing
    requires { 0 < length kept.old }
    ensures { Stores (drop_stores (index_of kept.old)) WriteEnd.Dropped allowance kept.old kept.new result }
{
    let w = kept[0];
    if events::outstanding(w) {
        return steps(&mut *kept, &[], WriteEnd::Dropped, allowance);
    }
    let flip = [Store {
        at: 0,
        value: events::flipped(w),
    }];
    steps(&mut *kept, &flip, WriteEnd::Dropped, allowance)
}

// Writes a record of 32 bytes behind those that wait, or drops it if the ring is full; refused for the recorder only.
pub fn write(kept: &mut [u64], bytes: &[u8; 32], allowance: u64) -> Result<Writing, events::Refusal>
    ensures { Gives (write kept.old bytes.now allowance) kept.new result }
{
    events::check(&*kept)?;
    let w = kept[0];
    if events::is_full(w) {
        let dropped = drop_one(&mut *kept, allowance);
        return Ok(dropped);
    }
    let slot = events::free(w) as usize;
    let event = events::record_of(bytes);
    let index = events::written(w);
    let due = write_stores(slot, event, index);
    let written = steps(&mut *kept, &due, WriteEnd::Stored, allowance);
    Ok(written)
}

// The oldest record, whose slot is free again.
pub fn read(kept: &mut [u64]) -> Result<Record, ReadRefusal>
    ensures { Gives (read kept.old) kept.new result }
{
    events::check(&*kept)?;
    let w = kept[0];
    if events::is_empty(w) {
        return Err(ReadRefusal::Empty);
    }
    let slot = events::oldest(w) as usize;
    let event = events::record_at(&*kept, slot);
    kept[0] = events::read_out(w);
    Ok(event)
}

// The acknowledgement becomes equal to the overflow flag.
pub fn acknowledge(kept: &mut [u64]) -> Result<(), AcknowledgeRefusal>
    ensures { Gives (acknowledge kept.old) kept.new result }
{
    events::check(&*kept)?;
    let w = kept[0];
    if !events::outstanding(w) {
        return Err(AcknowledgeRefusal::NoOverflow);
    }
    kept[0] = events::acknowledged(w);
    Ok(())
}
