// The C interface. Each call carries out one of the unit's, and tells its outcome by numbers: it returns 0 or the refusal's
// number, and fills the eight words of the answer. include/tahvenno.h says what each word is. host_c exports them.
#![tactic(auto)]

ghost use Rattle.interface.specs.Asked.{transaction_of};
ghost use Rattle.memory.specs.Memory.{both};
ghost use Rattle.batch_writes.specs.Batch.{lent};
ghost use Rattle.host.specs.Told.{Told, Leaves};
ghost use Rattle.host.specs.Calls.{run, fill, table_fill, doorbell, acknowledge, clear_pending, enable, event_write, event_read, event_acknowledge, translate, check_batch, state, write_command, write_batch};

use attributes::Attributes;
use interface::Tells;
use regions::Region;
use rows::Row;

// Puts the words of what is told into the answer, and hands back its number.
fn tell<A: Tells>(answer: &mut [u64; 8], a: A) -> u64
    ensures { Told (A.reply a) answer.new result }
{
    let reply = a.reply();
    let words = reply.words;
    *answer = words;
    reply.code
}

pub fn tahvenno_run(
    kept: &mut [u64],
    table: &mut [u64],
    queue: &[u8],
    features: u64,
    allowance: u64,
    answer: &mut [u64; 8],
) -> u64
    ensures { Leaves (run features allowance queue.now (both kept.old table.old)) (both kept.new table.new) answer.new result }
{
    let f = commands::features_of(features);
    let a = runs::run(&mut *kept, &mut *table, queue, f, allowance);
    tell(&mut *answer, a)
}

pub fn tahvenno_fill(
    kept: &mut [u64],
    row: u64,
    w0: u64,
    w1: u64,
    w2: u64,
    w3: u64,
    allowance: u64,
    answer: &mut [u64; 8],
) -> u64
    ensures { Leaves (fill row (record { w0 = w0; w1 = w1; w2 = w2; w3 = w3 }) allowance kept.old) kept.new answer.new result }
{
    let a = fills::fill(&mut *kept, row as usize, Row { w0, w1, w2, w3 }, allowance);
    tell(&mut *answer, a)
}

// The second table is lent beside the kept memory, which is only read.
pub fn tahvenno_table_fill(
    kept: &[u64],
    table: &mut [u64],
    row: u64,
    w0: u64,
    w1: u64,
    allowance: u64,
    answer: &mut [u64; 8],
) -> u64
    ensures { Leaves (table_fill row (record { w0 = w0; w1 = w1 }) allowance kept.now table.old) table.new answer.new result }
{
    let a = region_fills::fill(
        kept,
        &mut *table,
        row as usize,
        Region { w0, w1 },
        allowance,
    );
    tell(&mut *answer, a)
}

pub fn tahvenno_doorbell(kept: &mut [u64], wr: u64, answer: &mut [u64; 8]) -> u64
    ensures { Leaves (doorbell wr kept.old) kept.new answer.new result }
{
    let a = control_calls::doorbell(&mut *kept, wr);
    tell(&mut *answer, a)
}

pub fn tahvenno_acknowledge(kept: &mut [u64], answer: &mut [u64; 8]) -> u64
    ensures { Leaves (acknowledge kept.old) kept.new answer.new result }
{
    let a = control_calls::acknowledge(&mut *kept);
    tell(&mut *answer, a)
}

pub fn tahvenno_clear_pending(kept: &mut [u64], answer: &mut [u64; 8]) -> u64
    ensures { Leaves (clear_pending kept.old) kept.new answer.new result }
{
    let a = control_calls::clear_pending(&mut *kept);
    tell(&mut *answer, a)
}

pub fn tahvenno_enable(kept: &mut [u64], on: u64, answer: &mut [u64; 8]) -> u64
    ensures { Leaves (enable on kept.old) kept.new answer.new result }
{
    let a = control_calls::enable(&mut *kept, !(on == 0));
    tell(&mut *answer, a)
}

pub fn tahvenno_translate(
    kept: &[u64],
    stream: u32,
    substream: u32,
    address: u64,
    how: u64,
    memattr: u64,
    sh: u64,
    hints: u64,
    answer: &mut [u64; 8],
) -> u64
    ensures { Told (translate (transaction_of stream substream address how (record { memattr = memattr; sh = sh; hints = hints })) kept.now) answer.new result }
{
    let t = interface::transaction_of(
        stream,
        substream,
        address,
        how,
        Attributes { memattr, sh, hints },
    );
    tell(&mut *answer, transactions::translate(kept, t))
}

pub fn tahvenno_state(kept: &[u64], answer: &mut [u64; 8]) -> u64
    ensures { Told (state kept.now) answer.new result }
{
    tell(&mut *answer, image_state::state_of(kept))
}

// Document 02, T-12: nothing is stored, whatever the answer is.
pub fn tahvenno_check_batch(
    kept: &[u64],
    table: &[u64],
    original: &[u8],
    proposed: &[u8],
    features: u64,
    answer: &mut [u64; 8],
) -> u64
    ensures { Told (check_batch features original.now proposed.now (both kept.now table.now)) answer.new result }
{
    let a = batches::check(
        kept,
        table,
        original,
        proposed,
        commands::features_of(features),
    );
    tell(&mut *answer, a)
}

// The recorder, in words of its own.
pub fn tahvenno_event_write(
    events: &mut [u64],
    bytes: &[u8; 32],
    allowance: u64,
    answer: &mut [u64; 8],
) -> u64
    ensures { Leaves (event_write bytes.now allowance events.old) events.new answer.new result }
{
    let written = event_calls::write(&mut *events, bytes, allowance);
    tell(&mut *answer, written)
}

pub fn tahvenno_event_read(events: &mut [u64], answer: &mut [u64; 8]) -> u64
    ensures { Leaves (event_read events.old) events.new answer.new result }
{
    let read = event_calls::read(&mut *events);
    tell(&mut *answer, read)
}

pub fn tahvenno_event_acknowledge(events: &mut [u64], answer: &mut [u64; 8]) -> u64
    ensures { Leaves (event_acknowledge events.old) events.new answer.new result }
{
    let acknowledged = event_calls::acknowledge(&mut *events);
    tell(&mut *answer, acknowledged)
}

// A command written by its fields. Nothing is kept: the slot is the caller's.
pub fn tahvenno_write_command(
    slot: &mut [u8],
    fields: &[u64; 16],
    features: u64,
    answer: &mut [u64; 8],
) -> u64
    ensures { Leaves (write_command fields.now features slot.old) slot.new answer.new result }
{
    let a = writer::write(&mut *slot, fields, commands::features_of(features));
    tell(&mut *answer, a)
}

pub fn tahvenno_write_batch(
    kept: &mut [u64],
    queue: &mut [u8],
    commands: &[u64],
    features: u64,
    answer: &mut [u64; 8],
) -> u64
    ensures { Leaves (write_batch commands.now features (lent kept.old queue.old)) (lent kept.new queue.new) answer.new result }
{
    let a = batch_writes::write_batch(
        &mut *kept,
        &mut *queue,
        commands,
        commands::features_of(features),
    );
    tell(&mut *answer, a)
}
