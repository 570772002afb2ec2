// Document 02, T-09: why a command is illegal, and the Reserved bits that are set.
ghost use Rattle.std.specs.Prelude.{◌<◌};

use commands::{Coded, Decoded, Features, Reason, fields};
use std::fmt;

// Why a command is illegal, for a unit with these features.
#[derive(Clone, Copy)]
pub struct Illegal {
    pub reason: Reason,
    pub coded: Coded,
    pub features: Features,
}

impl fmt::Display for Illegal {
    fn fmt<W: fmt::Write>(&self, f: &mut fmt::Formatter<W>) -> fmt::Result {
        match self.reason {
            Reason::UnknownCode => f.write_str("this unit knows no such code"),
            Reason::FeatureAbsent => f.write_str("the box does not have the feature that it needs"),
            Reason::ReservedBit => {
                f.write_str("bits set that have to be 0:")?;
                reserved_bits(self.features, self.coded, f)
            }
            Reason::BadParameter => f.write_str(bad_parameter(fields::CODE.of(self.coded))),
        }
    }
}

// Of 46, or of a command with a range (T-07).
fn bad_parameter(code: u64) -> &'static str {
    match code {
        0x46 => "CS is 3, which means nothing",
        _ => "its range is one granule, of which TTL gives no level",
    }
}

// The set bits that are Reserved, from the lowest up. Each is tried alone, in the command that is only its code and, since other
// bits go by them, the TG and TTL of this one.
fn reserved_bits<W: fmt::Write>(
    features: Features,
    coded: Coded,
    f: &mut fmt::Formatter<W>,
) -> fmt::Result {
    let base = Coded {
        lo: fields::CODE.of(coded),
        hi: range_of(features, coded),
    };
    for bit in 8..128 {
        if is_set(coded, bit) & is_reserved_bit(features, base, bit) {
            write!(f, " {bit}")?;
        }
    }
    Ok(())
}

// TG and TTL, as they stand in the high word. Where one of their bits is Reserved itself, no bit goes by them: they are left out.
fn range_of(features: Features, coded: Coded) -> u64 {
    let range = coded.hi & 0xf00;
    let alone = Coded {
        lo: fields::CODE.of(coded),
        hi: range,
    };
    if is_reserved(features, alone) {
        return 0;
    }
    range
}

fn is_set(coded: Coded, bit: u64) -> bool
    requires { bit < 128 }
{
    let word = if bit < 64 { coded.lo } else { coded.hi };
    (word >> (bit % 64)) % 2 == 1
}

// Whether one more bit is a Reserved one, in the command of these words.
pub fn is_reserved_bit(features: Features, mut coded: Coded, bit: u64) -> bool
    requires { bit < 128 }
{
    if bit < 64 {
        coded.lo |= words::power(bit);
    } else {
        coded.hi |= words::power(bit - 64);
    }
    is_reserved(features, coded)
}

// A bad parameter does not count: TG alone is one.
fn is_reserved(features: Features, coded: Coded) -> bool {
    matches!(
        commands::decode(features, coded.lo, coded.hi),
        Decoded::Illegal(Reason::ReservedBit)
    )
}
