// The commands that Linux guests sent, from data/: how many of each code are legal, and how many are not, by reason.
use crate::features::NONE;
use crate::formats::names_address;
use command_text::coded_in;
use commands::{Coded, Decoded, Features, Reason, fields};
use std::io::{Read, Write};
use std::rt::Files;
use std::{fmt, fs, io};

// The bytes that are read at a time, and how often: enough for the longest file.
const CHUNK: usize = 4096;

const CHUNKS: usize = 64;

pub fn told(rt: &(impl Files + Eprint + Alloc), out: &mut impl Write) -> io::Result<()> {
    let single = Features {
        s1p: true,
        asid16: true,
        ..NONE
    };
    let stage1 = Features {
        ril: true,
        ..single
    };
    let stage2 = Features {
        s2p: true,
        vmid16: true,
        ril: true,
        ..NONE
    };
    let host = Features {
        hyp: true,
        ..stage1
    };
    let guests = [
        ("linux-6.12-no-ril", single),
        ("linux-6.12", stage1),
        ("linux-6.1-stage2", stage2),
        ("linux-6.1-hyp", host),
    ];
    for (name, features) in guests {
        writeln!(out, "{name}")?;
        guest_told(rt, &mut *out, name, features)?;
    }
    Ok(())
}

fn guest_told(
    rt: &(impl Files + Eprint + Alloc),
    out: &mut impl Write,
    name: &str,
    features: Features,
) -> io::Result<()> {
    let path = format!(in rt.alloc(); "{name}.bin")?;
    let mut file = match fs::open(rt, path.as_str()) {
        Ok(file) => file,
        Err(why) => return text::fail(rt, path.as_str(), &why),
    };
    let mut codes = [Verdicts::default(); 256];
    let mut addresses = Addresses::default();
    let mut chunk = Vec::with_capacity(rt.alloc(), CHUNK)?;
    for _ in 0..CHUNKS {
        chunk.clear();
        Read::by_ref(&mut file)
            .take(CHUNK as u64)
            .read_to_end(&mut chunk)?;
        count(features, &chunk, &mut codes, &mut addresses);
    }
    for (code, verdicts) in codes.iter().enumerate() {
        if *verdicts != Verdicts::default() {
            writeln!(out, "  {code:02x}: {verdicts}")?;
        }
    }
    writeln!(out, "  addresses: {addresses}")
}

// Counts the commands of some whole slots, each at its code.
fn count(features: Features, queue: &[u8], codes: &mut [Verdicts; 256], addresses: &mut Addresses) {
    let (slots, _) = queue.as_chunks::<16>();
    for bytes in slots {
        let coded = coded_in(bytes);
        codes[usize::from(bytes[0])].count(commands::decode(features, coded.lo, coded.hi));
        if names_address(fields::CODE.of(coded)) {
            addresses.count(coded);
        }
    }
}

// How many commands of a code are legal, and how many are not, by reason.
#[derive(Clone, Copy, Default, PartialEq, Eq)]
struct Verdicts {
    legal: u64,
    unknown_code: u64,
    feature_absent: u64,
    reserved_bit: u64,
    bad_parameter: u64,
}

impl Verdicts {
    fn count(&mut self, decoded: Decoded) {
        let n = match decoded {
            Decoded::Legal(_) => &mut self.legal,
            Decoded::Illegal(Reason::UnknownCode) => &mut self.unknown_code,
            Decoded::Illegal(Reason::FeatureAbsent) => &mut self.feature_absent,
            Decoded::Illegal(Reason::ReservedBit) => &mut self.reserved_bit,
            Decoded::Illegal(Reason::BadParameter) => &mut self.bad_parameter,
        };
        *n = n.wrapping_add(1);
    }
}

impl fmt::Display for Verdicts {
    fn fmt<W: fmt::Write>(&self, f: &mut fmt::Formatter<W>) -> fmt::Result {
        write!(f, "legal {}", self.legal)?;
        let reasons = [
            ("unknown code", self.unknown_code),
            ("feature absent", self.feature_absent),
            ("Reserved bit", self.reserved_bit),
            ("bad parameter", self.bad_parameter),
        ];
        for (name, n) in reasons {
            if n != 0 {
                write!(f, ", {name} {n}")?;
            }
        }
        Ok(())
    }
}

// How many commands name an address, legal or not, one of the upper half, and a range.
#[derive(Clone, Copy, Default)]
struct Addresses {
    named: u64,
    upper: u64,
    ranges: u64,
}

impl Addresses {
    fn count(&mut self, coded: Coded) {
        self.named = self.named.wrapping_add(1);
        let upper = coded.hi >> 52 == 0xfff;
        let range = fields::TG.of(coded) != 0;
        self.upper = self.upper.wrapping_add(u64::from(upper));
        self.ranges = self.ranges.wrapping_add(u64::from(range));
    }
}

impl fmt::Display for Addresses {
    fn fmt<W: fmt::Write>(&self, f: &mut fmt::Formatter<W>) -> fmt::Result {
        write!(
            f,
            "{}, of the upper half {}, ranges {}",
            self.named, self.upper, self.ranges
        )
    }
}
