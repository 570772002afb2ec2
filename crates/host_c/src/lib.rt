// The exports of the C interface: each is host's function of that name, under the name and the calling convention that
// include/tahvenno.h declares. A crate is a library or a static library: host is what the programs and this one rest on.
#![tactic(auto)]

ghost use Rattle.interface.specs.Asked.{transaction_of};
ghost use Rattle.memory.specs.Memory.{both};
ghost use Rattle.batch_writes.specs.Batch.{lent};
ghost use Rattle.host.specs.Told.{Told, Leaves};
ghost use Rattle.host.specs.Calls.{run, fill, table_fill, doorbell, acknowledge, clear_pending, enable, event_write, event_read, event_acknowledge, translate, check_batch, state, write_command, write_batch};

#[unsafe(no_mangle)]
pub extern "C" fn tahvenno_run(
    kept: &mut [u64],
    table: &mut [u64],
    queue: &[u8],
    features: u64,
    allowance: u64,
    answer: &mut [u64; 8],
) -> u64
    ensures { Leaves (run features allowance queue.now (both kept.old table.old)) (both kept.new table.new) answer.new result }
{
    host::tahvenno_run(
        &mut *kept,
        &mut *table,
        queue,
        features,
        allowance,
        &mut *answer,
    )
}

#[unsafe(no_mangle)]
pub extern "C" fn tahvenno_fill(
    kept: &mut [u64],
    row: u64,
    w0: u64,
    w1: u64,
    w2: u64,
    w3: u64,
    allowance: u64,
    answer: &mut [u64; 8],
) -> u64
    ensures { Leaves (fill row (record { w0 = w0; w1 = w1; w2 = w2; w3 = w3 }) allowance kept.old) kept.new answer.new result }
{
    host::tahvenno_fill(&mut *kept, row, w0, w1, w2, w3, allowance, &mut *answer)
}

#[unsafe(no_mangle)]
pub extern "C" fn tahvenno_table_fill(
    kept: &[u64],
    table: &mut [u64],
    row: u64,
    w0: u64,
    w1: u64,
    allowance: u64,
    answer: &mut [u64; 8],
) -> u64
    ensures { Leaves (table_fill row (record { w0 = w0; w1 = w1 }) allowance kept.now table.old) table.new answer.new result }
{
    host::tahvenno_table_fill(kept, &mut *table, row, w0, w1, allowance, &mut *answer)
}

#[unsafe(no_mangle)]
pub extern "C" fn tahvenno_doorbell(kept: &mut [u64], wr: u64, answer: &mut [u64; 8]) -> u64
    ensures { Leaves (doorbell wr kept.old) kept.new answer.new result }
{
    host::tahvenno_doorbell(&mut *kept, wr, &mut *answer)
}

#[unsafe(no_mangle)]
pub extern "C" fn tahvenno_acknowledge(kept: &mut [u64], answer: &mut [u64; 8]) -> u64
    ensures { Leaves (acknowledge kept.old) kept.new answer.new result }
{
    host::tahvenno_acknowledge(&mut *kept, &mut *answer)
}

#[unsafe(no_mangle)]
pub extern "C" fn tahvenno_clear_pending(kept: &mut [u64], answer: &mut [u64; 8]) -> u64
    ensures { Leaves (clear_pending kept.old) kept.new answer.new result }
{
    host::tahvenno_clear_pending(&mut *kept, &mut *answer)
}

#[unsafe(no_mangle)]
pub extern "C" fn tahvenno_enable(kept: &mut [u64], on: u64, answer: &mut [u64; 8]) -> u64
    ensures { Leaves (enable on kept.old) kept.new answer.new result }
{
    host::tahvenno_enable(&mut *kept, on, &mut *answer)
}

#[unsafe(no_mangle)]
pub extern "C" fn tahvenno_translate(
    kept: &[u64],
    stream: u32,
    substream: u32,
    address: u64,
    how: u64,
    memattr: u64,
    sh: u64,
    hints: u64,
    answer: &mut [u64; 8],
) -> u64
    ensures { Told (translate (transaction_of stream substream address how (record { memattr = memattr; sh = sh; hints = hints })) kept.now) answer.new result }
{
    host::tahvenno_translate(
        kept,
        stream,
        substream,
        address,
        how,
        memattr,
        sh,
        hints,
        &mut *answer,
    )
}

#[unsafe(no_mangle)]
pub extern "C" fn tahvenno_state(kept: &[u64], answer: &mut [u64; 8]) -> u64
    ensures { Told (state kept.now) answer.new result }
{
    host::tahvenno_state(kept, &mut *answer)
}

#[unsafe(no_mangle)]
pub extern "C" fn tahvenno_check_batch(
    kept: &[u64],
    table: &[u64],
    original: &[u8],
    proposed: &[u8],
    features: u64,
    answer: &mut [u64; 8],
) -> u64
    ensures { Told (check_batch features original.now proposed.now (both kept.now table.now)) answer.new result }
{
    host::tahvenno_check_batch(kept, table, original, proposed, features, &mut *answer)
}

#[unsafe(no_mangle)]
pub extern "C" fn tahvenno_event_write(
    events: &mut [u64],
    bytes: &[u8; 32],
    allowance: u64,
    answer: &mut [u64; 8],
) -> u64
    ensures { Leaves (event_write bytes.now allowance events.old) events.new answer.new result }
{
    host::tahvenno_event_write(&mut *events, bytes, allowance, &mut *answer)
}

#[unsafe(no_mangle)]
pub extern "C" fn tahvenno_event_read(events: &mut [u64], answer: &mut [u64; 8]) -> u64
    ensures { Leaves (event_read events.old) events.new answer.new result }
{
    host::tahvenno_event_read(&mut *events, &mut *answer)
}

#[unsafe(no_mangle)]
pub extern "C" fn tahvenno_event_acknowledge(events: &mut [u64], answer: &mut [u64; 8]) -> u64
    ensures { Leaves (event_acknowledge events.old) events.new answer.new result }
{
    host::tahvenno_event_acknowledge(&mut *events, &mut *answer)
}

#[unsafe(no_mangle)]
pub extern "C" fn tahvenno_write_command(
    slot: &mut [u8],
    fields: &[u64; 16],
    features: u64,
    answer: &mut [u64; 8],
) -> u64
    ensures { Leaves (write_command fields.now features slot.old) slot.new answer.new result }
{
    host::tahvenno_write_command(&mut *slot, fields, features, &mut *answer)
}

#[unsafe(no_mangle)]
pub extern "C" fn tahvenno_write_batch(
    kept: &mut [u64],
    queue: &mut [u8],
    commands: &[u64],
    features: u64,
    answer: &mut [u64; 8],
) -> u64
    ensures { Leaves (write_batch commands.now features (lent kept.old queue.old)) (lent kept.new queue.new) answer.new result }
{
    host::tahvenno_write_batch(&mut *kept, &mut *queue, commands, features, &mut *answer)
}
