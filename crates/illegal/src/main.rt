// Document 02, T-09: the illegal commands of a queue, for a technician: slot, code, why, and the Reserved bits that are set.
// Standard input has the features as two hexadecimal digits and the line's end, then the bytes of the queue.
#![tactic(auto)]

use command_text::Illegal;
use commands::{Decoded, Features, fields};
use std::io;
use std::io::{BufWriter, Read, Write};

// The bytes of the first line, and the most of a queue that are looked at.
const LINE: usize = 3;

const MOST: usize = 65536;

fn main(rt: HostRuntime) -> io::Result<()> {
    let mut out = BufWriter::new(rt.alloc(), io::writer(&rt))?;
    let features = features_in(rt.reader())?;
    let mut queue = Vec::with_capacity(rt.alloc(), MOST)?;
    rt.reader().take(MOST as u64).read_to_end(&mut queue)?;
    told(&mut out, &queue, features)?;
    out.flush()
}

// Reads the first line, a byte at a time. One that is missing is 0, and its digit too.
fn features_in(mut input: impl Read + Drop) -> io::Result<Features> {
    let mut line = [0; LINE];
    for to in line.iter_mut() {
        let mut byte = [0];
        input.read(&mut byte)?;
        *to = byte[0];
    }
    let [high, low, _] = line;
    Ok(commands::features_of(16 * text::digit(high) + text::digit(low)))
}

fn told(out: &mut impl Write, queue: &[u8], features: Features) -> io::Result<()> {
    let (slots, rest) = queue.as_chunks::<16>();
    for (slot, bytes) in slots.iter().enumerate() {
        let coded = command_text::coded_in(bytes);
        if let Decoded::Illegal(reason) = commands::decode(features, coded.lo, coded.hi) {
            let code = fields::CODE.of(coded);
            let illegal = Illegal {
                reason,
                coded,
                features,
            };
            writeln!(out, "slot {slot}, code {code:x}: {illegal}")?;
        }
    }
    if !rest.is_empty() {
        writeln!(out, "the last command is not whole")?;
    }
    Ok(())
}
