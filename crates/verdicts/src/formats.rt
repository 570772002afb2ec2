// Document 01, Commands and their scopes, and document 02, T-05, T-07 and T-11: which codes are known, which bits of each are
// Reserved, which features it needs, and what it may have with a range.
use crate::features::{ALL, NONE};
use command_text::is_reserved_bit;
use commands::{Coded, Decoded, Features, Reason};
use std::io::Write;
use std::{fmt, io};

// The codes that are tried: a list of its own, so that a code that `commands` leaves out is missed here.
const CODES: [u64; 20] = [
    0x01, 0x02, 0x03, 0x04, 0x05, 0x06, 0x10, 0x11, 0x12, 0x13, 0x20, 0x21, 0x22, 0x23, 0x28, 0x2A,
    0x30, 0x46, 0x70, 0x73,
];

// Whether commands of this code name an address, and may have a range. Of these 2A has no bits for the upper half.
pub fn names_address(code: u64) -> bool {
    matches!(code, 0x12 | 0x13 | 0x22 | 0x23 | 0x2A)
}

pub fn told(out: &mut impl Write) -> io::Result<()> {
    write!(out, "legal codes:")?;
    for code in 0..256 {
        if let Decoded::Legal(_) = commands::decode(ALL, code, 0) {
            write!(out, " {code:02x}")?;
        }
    }
    writeln!(out)?;
    syncs_told(&mut *out)?;
    for code in CODES {
        code_told(&mut *out, code)?;
        if names_address(code) {
            ranges_told(&mut *out, code)?;
        }
    }
    Ok(())
}

fn syncs_told(out: &mut impl Write) -> io::Result<()> {
    write!(out, "46 with CS 0:{}", Verdict::of(NONE, 0x46, 0))?;
    for cs in 1..4 {
        write!(out, ", CS {cs}:{}", Verdict::of(NONE, cs << 12 | 0x46, 0))?;
    }
    writeln!(out)
}

// A code in the command that is nothing else: what each feature is to it, and its Reserved bits.
fn code_told(out: &mut impl Write, code: u64) -> io::Result<()> {
    let no_s2p = Features { s2p: false, ..ALL };
    let without = [
        (": without S1P", Features { s1p: false, ..ALL }),
        (", S2P", no_s2p),
        (
            ", ASID16",
            Features {
                asid16: false,
                ..ALL
            },
        ),
        (
            ", VMID16",
            Features {
                vmid16: false,
                ..ALL
            },
        ),
        (", Hyp", Features { hyp: false, ..ALL }),
        (", RIL", Features { ril: false, ..ALL }),
        (", DPT", Features { dpt: false, ..ALL }),
    ];
    write!(out, "{code:02x}")?;
    for (name, features) in without {
        write!(out, "{name}{}", Verdict::of(features, code, 0))?;
    }
    writeln!(out)?;
    writeln!(out, "  Reserved:{}", Reserved::of(ALL, code, 0))?;
    if let Decoded::Legal(_) = commands::decode(no_s2p, code, 0) {
        writeln!(
            out,
            "  Reserved without S2P:{}",
            Reserved::of(no_s2p, code, 0)
        )?;
    }
    Ok(())
}

// A code whose commands may have a range: the bits that are Reserved by TG and TTL, and the combinations of its fields.
fn ranges_told(out: &mut impl Write, code: u64) -> io::Result<()> {
    let no_ril = Features { ril: false, ..ALL };
    writeln!(
        out,
        "  Reserved without RIL:{}",
        Reserved::of(no_ril, code, 0)
    )?;
    writeln!(
        out,
        "  Reserved with TG 1:{}",
        Reserved::of(ALL, code, 0x400)
    )?;
    writeln!(
        out,
        "  Reserved with TG 1, TTL 1:{}",
        Reserved::of(ALL, code, 0x500)
    )?;
    for tg in 0..4 {
        for ttl in 0..4 {
            let hi = tg << 10 | ttl << 8;
            writeln!(
                out,
                "  TG {tg}, TTL {ttl}:{}, with NUM 1{}, SCALE 1{}, TTL128{}",
                Verdict::of(ALL, code, hi),
                Verdict::of(ALL, code | 0x1000, hi),
                Verdict::of(ALL, code | 0x10_0000, hi),
                Verdict::of(ALL, code, hi | 0x80)
            )?;
        }
    }
    Ok(())
}

// What decoding says of a command.
#[derive(Clone, Copy)]
struct Verdict(Decoded);

impl Verdict {
    fn of(features: Features, lo: u64, hi: u64) -> Verdict {
        Verdict(commands::decode(features, lo, hi))
    }
}

impl fmt::Display for Verdict {
    fn fmt<W: fmt::Write>(&self, f: &mut fmt::Formatter<W>) -> fmt::Result {
        f.write_str(match self.0 {
            Decoded::Legal(_) => " legal",
            Decoded::Illegal(Reason::UnknownCode) => " unknown code",
            Decoded::Illegal(Reason::FeatureAbsent) => " feature absent",
            Decoded::Illegal(Reason::ReservedBit) => " Reserved bit",
            Decoded::Illegal(Reason::BadParameter) => " bad parameter",
        })
    }
}

// The ranges of bits that are Reserved in a command, from the top down to 8.
#[derive(Clone, Copy)]
struct Reserved {
    features: Features,
    coded: Coded,
}

impl Reserved {
    fn of(features: Features, lo: u64, hi: u64) -> Reserved {
        Reserved {
            features,
            coded: Coded { lo, hi },
        }
    }
}

impl fmt::Display for Reserved {
    fn fmt<W: fmt::Write>(&self, f: &mut fmt::Formatter<W>) -> fmt::Result {
        let mut within = false;
        for bit in (8..128).rev() {
            let reserved = is_reserved_bit(self.features, self.coded, bit);
            if reserved & !within {
                write!(f, " {bit}:")?;
            }
            if !reserved & within {
                write!(f, "{}", bit + 1)?;
            }
            within = reserved;
        }
        if within {
            f.write_str("8")?;
        }
        Ok(())
    }
}
