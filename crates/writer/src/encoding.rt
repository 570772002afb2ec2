// Document 02, T-10: each field of a command at its bits.
ghost use Rattle.std.specs.Prelude.{◌≡◌, ◌≤◌, ◌<◌, length};
ghost use Rattle.words.specs.Parts.{put, joined};
ghost use Rattle.words.specs.Ranges.{puts};
ghost use Rattle.writer.specs.Layouts.{wide, ranged};
ghost use Rattle.writer.specs.Writing.{asked, entries, encoded, whole, split};

use commands::{Coded, Field, fields};

// A field that may be asked for: the number of its word among the sixteen, and its bits in the command.
#[derive(Clone, Copy)]
struct Named {
    number: usize,
    bits: Field,
    ghost among_them: { number < wide },
}

impl Named {
    // The command with what d asks for in this field.
    fn put(self, c: Coded, d: &[u64]) -> Coded
        requires { wide ≤ length d.now }
        ensures { result ≡ split (put self.bits.high self.bits.low (asked d.now self.number) (whole c)) }
    {
        let v = d[self.number];
        if self.bits.low < 64 {
            return Coded {
                lo: words::put(c.lo, self.bits.high, self.bits.low, v),
                hi: c.hi,
            };
        }
        Coded {
            lo: c.lo,
            hi: words::put(c.hi, self.bits.high - 64, self.bits.low - 64, v),
        }
    }
}

const CODE: Named = Named {
    number: 0,
    bits: fields::CODE,
};

const STREAM: Named = Named {
    number: 1,
    bits: fields::STREAM,
};

const SUBSTREAM: Named = Named {
    number: 2,
    bits: fields::SUBSTREAM,
};

const RANGE: Named = Named {
    number: 3,
    bits: fields::RANGE,
};

const LEAF: Named = Named {
    number: 4,
    bits: fields::LEAF,
};

const VMID: Named = Named {
    number: 5,
    bits: fields::VMID,
};

const ASID: Named = Named {
    number: 6,
    bits: fields::ASID,
};

const PAGE: Named = Named {
    number: 7,
    bits: fields::PAGE,
};

const IPA_PAGE: Named = Named {
    number: 7,
    bits: fields::IPA_PAGE,
};

const DPT_PAGE: Named = Named {
    number: 7,
    bits: fields::DPT_PAGE,
};

const CS: Named = Named {
    number: 8,
    bits: fields::CS,
};

const NUM: Named = Named {
    number: 9,
    bits: fields::NUM,
};

const SCALE: Named = Named {
    number: 10,
    bits: fields::SCALE,
};

const TG: Named = Named {
    number: 11,
    bits: fields::TG,
};

const TTL: Named = Named {
    number: 12,
    bits: fields::TTL,
};

const TTL128: Named = Named {
    number: 13,
    bits: fields::TTL128,
};

const SIZE: Named = Named {
    number: 14,
    bits: fields::SIZE,
};

// Leaf, NUM, SCALE, TG, TTL and TTL128.
fn ranged(c: Coded, d: &[u64]) -> Coded
    requires { wide ≤ length d.now }
    ensures { result ≡ split (puts (entries ranged d.now) (whole c)) }
{
    let a = LEAF.put(c, d);
    let num = NUM.put(a, d);
    let scale = SCALE.put(num, d);
    let tg = TG.put(scale, d);
    let ttl = TTL.put(tg, d);
    TTL128.put(ttl, d)
}

// The two words of the command that d asks for. A code that is not listed has no fields.
pub fn encode(d: &[u64]) -> Coded
    requires { wide ≤ length d.now }
    ensures { result ≡ split (encoded d.now) }
{
    let c = CODE.put(Coded { lo: 0, hi: 0 }, d);
    match d[0] {
        0x03 => LEAF.put(STREAM.put(c, d), d),
        0x04 => RANGE.put(STREAM.put(c, d), d),
        0x05 => LEAF.put(SUBSTREAM.put(STREAM.put(c, d), d), d),
        0x06 => STREAM.put(c, d),
        0x10 => VMID.put(c, d),
        0x11 => ASID.put(VMID.put(c, d), d),
        0x12 => ranged(PAGE.put(ASID.put(VMID.put(c, d), d), d), d),
        0x13 => ranged(PAGE.put(VMID.put(c, d), d), d),
        0x21 => ASID.put(c, d),
        0x22 => ranged(PAGE.put(ASID.put(c, d), d), d),
        0x23 => ranged(PAGE.put(c, d), d),
        0x28 => VMID.put(c, d),
        0x2A => ranged(IPA_PAGE.put(VMID.put(c, d), d), d),
        0x46 => CS.put(c, d),
        0x73 => SIZE.put(DPT_PAGE.put(LEAF.put(c, d), d), d),
        _ => c,
    }
}
