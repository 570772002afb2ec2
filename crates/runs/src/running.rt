// Document 01, One run: the commands that wait, and the rows of each.
ghost use Rattle.std.specs.Prelude.{◌≡◌, ◌*◌, ◌^◌, length, eqb};
ghost use Rattle.control.specs.Control.{log2size, slot};
ghost use Rattle.commands.specs.Decoding.{decode_at};
ghost use Rattle.memory.specs.Memory.{both};
ghost use Rattle.runs.specs.Running.{end_of, Does, Fit};

use crate::{End, Ran};
use commands::{Decoded, Features};
use control::Rest;
use due::Stepped;

// 16 bytes for each slot.
pub fn queue_good(queue: &[u8], w: u64) -> bool
    ensures { result ≡ eqb (length queue.now) (16 * 2 ^ log2size w) }
{
    let size = 16 * words::power(control::log2size_of(w));
    queue.len() as u64 == size
}

fn end_of(rest: Rest) -> End
    ensures { result ≡ end_of rest }
{
    match rest {
        Rest::Off => End::Off,
        Rest::Held => End::Held,
        Rest::Empty => End::Empty,
    }
}

fn command_at(f: Features, queue: &[u8], w: u64) -> Decoded
    requires { length queue.now ≡ 16 * 2 ^ log2size w }
    ensures { result ≡ decode_at f queue.now (slot w) }
{
    let at = control::slot_of(w) as usize;
    commands::decode_at(f, queue, at)
}

// Goes through the commands, and through the rows of each, until nothing is due or the allowance is spent.
pub fn go(kept: &mut [u64], table: &mut [u64], queue: &[u8], f: Features, allowance: u64) -> Ran
    requires { Fit queue.now (both kept.old table.old) }
    ensures { Does f queue.now allowance (both kept.old table.old) (both kept.new table.new) result }
{
    let mut left = allowance;
    let mut consumed: u64 = 0;
    let mut stores: u64 = 0;
    let mut removed: u64 = 0;
    let mut syncs: u64 = 0;
    let end = 'run: loop {
        let w = kept[0];
        if let Some(rest) = control::standing_of(w) {
            break 'run end_of(rest);
        }
        let d = command_at(f, queue, w);
        let sync = commands::syncs_of(d);
        let mut from: usize = 0;
        'rows: loop {
            if left == 0 {
                break 'run End::Cut;
            }
            left -= 1;
            stores += 1;
            match due::step(&mut *kept, &mut *table, f, d, from) {
                Stepped::Removed(i) => {
                    removed += 1;
                    from = i + 1;
                }
                Stepped::Consumed => {
                    consumed += 1;
                    syncs += sync;
                    break 'rows;
                }
                Stepped::DidRaise(told) => {
                    break 'run End::Raised(told);
                }
            }
        }
    };
    Ran {
        end,
        consumed,
        stores,
        removed,
        syncs,
    }
}
