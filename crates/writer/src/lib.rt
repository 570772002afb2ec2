// Document 02, T-10: a command that is asked for by its fields, written into a slot of the queue.
#![tactic(auto)]

mod encoding;
mod fields;

ghost use Rattle.std.specs.Prelude.{◌≡◌, ◌+◌, ◌≤◌, length};
ghost use Rattle.words.specs.Outcomes.{Gives};
ghost use Rattle.writer.specs.Layouts.{wide};
ghost use Rattle.writer.specs.Writing.{is_absent, slot_size, judged, with_command, write};

use commands::{Coded, Decoded, Features, Reason};
pub use encoding::encode;
pub use fields::fields_of;

// How many words ask for a command, and how many bytes a slot has.
pub const WIDE: usize = 16;

pub const SLOT: usize = 16;

// What is wrong with a command that is asked for: a feature is missing; a field does not fit, or the command would be illegal.
#[derive(Clone, Copy)]
pub enum Fault {
    Missing,
    Unfit,
}

// Why writing is refused: the slot's length, or the command.
#[derive(Clone, Copy)]
pub enum WriteRefusal {
    BadSlot,
    Bad(Fault),
}

impl From<Fault> for WriteRefusal {
    ghost use Rattle.writer.specs.declared.WriteRefusal.{WriteRefusal};

    ghost from_gives = { λ why e. e ≡ WriteRefusal.Bad why };

    fn from(why: Fault) -> WriteRefusal {
        WriteRefusal::Bad(why)
    }
}

// What is written for d, or what is wrong with it. A field fits exactly if it is read back as it was asked for.
pub fn judge(f: Features, d: &[u64]) -> Result<Coded, Fault>
    requires { length d.now ≡ wide }
    ensures { result ≡ judged f d.now }
{
    let c = encode(d);
    match commands::decode(f, c.lo, c.hi) {
        Decoded::Legal(command) => {
            if fields::same(fields::fields_of(command), d) {
                return Ok(c);
            }
            Err(Fault::Unfit)
        }
        Decoded::Illegal(why) => {
            if (d[0] < 256) & absent(why) {
                return Err(Fault::Missing);
            }
            Err(Fault::Unfit)
        }
    }
}

fn absent(why: Reason) -> bool
    ensures { result ≡ is_absent (Decoded.Illegal why) }
{
    match why {
        Reason::UnknownCode => false,
        Reason::FeatureAbsent => true,
        Reason::ReservedBit => false,
        Reason::BadParameter => false,
    }
}

// The command's 16 bytes, from `at` on.
pub fn store_at(bytes: &mut [u8], at: usize, c: Coded)
    requires { at + slot_size ≤ length bytes.old }
    ensures { bytes.new ≡ with_command bytes.old at c }
{
    words::store_at(&mut *bytes, at, c.lo);
    words::store_at(&mut *bytes, at + 8, c.hi);
}

// Writes the command that d asks for into a slot.
pub fn write(slot: &mut [u8], d: &[u64; 16], f: Features) -> Result<(), WriteRefusal>
    ensures { Gives (write f d.now slot.old) slot.new result }
{
    if slot.len() != SLOT {
        return Err(WriteRefusal::BadSlot);
    }
    let c = judge(f, d)?;
    store_at(&mut *slot, 0, c);
    Ok(())
}
