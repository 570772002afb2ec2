// The queue as a reader: the guest's bytes, borrowed, and the index of a slot. The rules are functions of bytes and an
// index; those over the struct only take it apart or put it together, and `second` asks no struct of its caller.
#![tactic(auto)]

ghost use Rattle.std.specs.Prelude.{◌≡◌};
ghost use Rattle.reader.specs.Slots.{read_at, after, slots_left, begun, moved_on};

use commands::{Decoded, Features};

#[derive(Clone, Copy)]
pub struct Reader<'a> {
    pub bytes: &'a [u8],
    pub at: usize,
}

// Bytes of a slot.
const SLOT: usize = 16;

// The largest index.
const LAST: usize = 0xffff_ffff_ffff_ffff;

// The slot at an index, if all of it is inside. Slots are compared and not bytes, which could wrap.
pub fn read_at(f: Features, bytes: &[u8], at: usize) -> Option<Decoded>
    ensures { result ≡ read_at f bytes.now at }
{
    if at < bytes.len() / SLOT {
        return Some(commands::decode_at(f, bytes, at));
    }
    None
}

// The next index. The largest, which no bytes reach, stays.
pub fn index_after(at: usize) -> usize
    ensures { result ≡ after at }
{
    if at < LAST {
        return at + 1;
    }
    at
}

// How many whole slots there are from an index on.
pub fn left_from(bytes: &[u8], at: usize) -> usize
    ensures { result ≡ slots_left bytes.now at }
{
    let slots = bytes.len() / SLOT;
    if at < slots {
        return slots - at;
    }
    0
}

// A reader at the first slot.
pub fn new<'a>(bytes: &'a [u8]) -> Reader<'a>
    ensures { result ≡ begun bytes.entry }
{
    Reader { bytes, at: 0 }
}

// What stands at the reader's index.
pub fn read<'a>(f: Features, r: Reader<'a>) -> Option<Decoded>
    ensures { result ≡ read_at f r.entry.bytes.now r.entry.at }
{
    read_at(f, r.bytes, r.at)
}

// The reader at the next index.
pub fn moved_on<'a>(r: Reader<'a>) -> Reader<'a>
    ensures { result ≡ moved_on r.entry }
{
    let at = index_after(r.at);
    Reader { bytes: r.bytes, at }
}

// How many whole slots there are from the reader's index on.
pub fn slots_left<'a>(r: Reader<'a>) -> usize
    ensures { result ≡ slots_left r.entry.bytes.now r.entry.at }
{
    left_from(r.bytes, r.at)
}

// What stands in the slot after the first.
pub fn second(f: Features, bytes: &[u8]) -> Option<Decoded>
    ensures { result ≡ read_at f bytes.now 1 }
{
    read(f, moved_on(new(bytes)))
}
