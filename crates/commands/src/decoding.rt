// Document 01, Commands and their scopes, with document 02, T-05, T-07, T-09 and T-11: which commands are legal, and what they are.
ghost use Rattle.std.specs.Prelude.{◌≡◌, ◌+◌, ◌*◌, ◌≤◌, ◌<◌, length};
ghost use Rattle.words.specs.Parts.{joined};
ghost use Rattle.words.specs.Search.{place_of};
ghost use Rattle.words.specs.Ranges.{get};
ghost use Rattle.commands.specs.Formats.{codes, stream_bits, vmid_bits, asid_bits, leaf_bits, page_bits, is_set_in, target_of};
ghost use Rattle.commands.specs.Decoding.{feature_present, bad_cs, bad_range, parameter_good, command_of, decode, decode_at, is_counted, syncs_of};

use crate::formats::{CODES, clean};
use crate::{Coded, Command, Decoded, Features, Reason, Target, fields};

// The place of a code among the codes, or how many there are.
fn place(code: u64) -> usize
    ensures { result ≡ place_of codes code }
{
    match code {
        0x01 => 0,
        0x02 => 1,
        0x03 => 2,
        0x04 => 3,
        0x05 => 4,
        0x06 => 5,
        0x10 => 6,
        0x11 => 7,
        0x12 => 8,
        0x13 => 9,
        0x20 => 10,
        0x21 => 11,
        0x22 => 12,
        0x23 => 13,
        0x28 => 14,
        0x2A => 15,
        0x30 => 16,
        0x46 => 17,
        0x70 => 18,
        0x73 => 19,
        _ => CODES,
    }
}

fn feature_present(f: Features, code: u64) -> bool
    ensures { result ≡ feature_present f code }
{
    match code {
        0x01 => true,
        0x02 => true,
        0x03 => true,
        0x04 => true,
        0x05 => f.s1p,
        0x06 => f.s1p,
        0x10 => f.s1p,
        0x11 => f.s1p,
        0x12 => f.s1p,
        0x13 => f.s1p,
        0x20 => f.hyp & f.s1p,
        0x21 => f.hyp & f.s1p,
        0x22 => f.hyp & f.s1p,
        0x23 => f.hyp & f.s1p,
        0x28 => f.s2p,
        0x2A => f.s2p,
        0x30 => true,
        0x46 => true,
        0x70 => f.dpt,
        _ => f.dpt,
    }
}

fn bad_cs(code: u64, c: Coded) -> bool
    ensures { result ≡ bad_cs code (joined c.lo c.hi) }
{
    (code == 0x46) & (fields::CS.of(c) == 3)
}

// Document 02, T-07: one granule, of which TTL gives no level.
fn bad_range(code: u64, c: Coded) -> bool
    ensures { result ≡ bad_range code (joined c.lo c.hi) }
{
    let by_address = (code == 0x12)
        | (code == 0x13)
        | (code == 0x22)
        | (code == 0x23)
        | (code == 0x2A);
    let tg = fields::TG.of(c);
    let ttl = fields::TTL.of(c);
    let one = (fields::NUM.of(c) == 0) & (fields::SCALE.of(c) == 0);
    by_address & !(tg == 0) & one & ((ttl == 0) | ((tg == 2) & (ttl == 1)))
}

fn parameter_good(code: u64, c: Coded) -> bool
    ensures { result ≡ parameter_good code (joined c.lo c.hi) }
{
    !(bad_cs(code, c) | bad_range(code, c))
}

fn leaf(c: Coded) -> bool
    ensures { result ≡ is_set_in leaf_bits (joined c.lo c.hi) }
{
    fields::LEAF.of(c) == 1
}

fn target_of(c: Coded, page: u64) -> Target
    ensures { result ≡ target_of page (joined c.lo c.hi) }
{
    Target {
        leaf: leaf(c),
        page,
        num: fields::NUM.of(c),
        scale: fields::SCALE.of(c),
        tg: fields::TG.of(c),
        ttl: fields::TTL.of(c),
        ttl128: fields::TTL128.of(c) == 1,
    }
}

fn command_of(code: u64, c: Coded) -> Command
    ensures { result ≡ command_of code (joined c.lo c.hi) }
{
    match code {
        0x01 => Command::PrefetchConfig,
        0x02 => Command::PrefetchAddr,
        0x03 => Command::CfgiSte(fields::STREAM.of(c), leaf(c)),
        0x04 => Command::CfgiSteRange(fields::STREAM.of(c), fields::RANGE.of(c)),
        0x05 => Command::CfgiCd(fields::SUBSTREAM.of(c), fields::STREAM.of(c), leaf(c)),
        0x06 => Command::CfgiCdAll(fields::STREAM.of(c)),
        0x10 => Command::TlbiNhAll(fields::VMID.of(c)),
        0x11 => Command::TlbiNhAsid(fields::VMID.of(c), fields::ASID.of(c)),
        0x12 => Command::TlbiNhVa(
            fields::VMID.of(c),
            fields::ASID.of(c),
            target_of(c, fields::PAGE.of(c)),
        ),
        0x13 => Command::TlbiNhVaa(fields::VMID.of(c), target_of(c, fields::PAGE.of(c))),
        0x20 => Command::TlbiEl2All,
        0x21 => Command::TlbiEl2Asid(fields::ASID.of(c)),
        0x22 => Command::TlbiEl2Va(fields::ASID.of(c), target_of(c, fields::PAGE.of(c))),
        0x23 => Command::TlbiEl2Vaa(target_of(c, fields::PAGE.of(c))),
        0x28 => Command::TlbiS12Vmall(fields::VMID.of(c)),
        0x2A => Command::TlbiS2Ipa(fields::VMID.of(c), target_of(c, fields::IPA_PAGE.of(c))),
        0x30 => Command::TlbiNsnhAll,
        0x46 => Command::Sync(fields::CS.of(c)),
        0x70 => Command::DptiAll,
        _ => Command::DptiPa(fields::DPT_PAGE.of(c), fields::SIZE.of(c), leaf(c)),
    }
}

// What a command is: the first test that fails says why it is illegal.
pub fn decode(f: Features, lo: u64, hi: u64) -> Decoded
    ensures { result ≡ decode f lo hi }
{
    let c = Coded { lo, hi };
    let code = fields::CODE.of(c);
    let k = place(code);
    if k >= CODES {
        return Decoded::Illegal(Reason::UnknownCode);
    }
    if !feature_present(f, code) {
        return Decoded::Illegal(Reason::FeatureAbsent);
    }
    if !clean(f, k, c) {
        return Decoded::Illegal(Reason::ReservedBit);
    }
    if !parameter_good(code, c) {
        return Decoded::Illegal(Reason::BadParameter);
    }
    Decoded::Legal(command_of(code, c))
}

// The command in a slot of the lent queue.
pub fn decode_at(f: Features, queue: &[u8], slot: usize) -> Decoded
    requires { 16 * slot + 16 ≤ length queue.now }
    ensures { result ≡ decode_at f queue.now slot }
{
    let at = 16 * slot;
    decode(f, words::word_at(queue, at), words::word_at(queue, at + 8))
}

fn counted(c: Command) -> bool
    ensures { result ≡ is_counted c }
{
    match c {
        Command::Sync(cs) => cs == 1,
        _ => false,
    }
}

// How many CMD_SYNCs with CS 1 a decoded command is: one or none.
pub fn syncs_of(d: Decoded) -> u64
    ensures { (result ≡ syncs_of d) × (result ≤ 1) }
{
    match d {
        Decoded::Legal(c) => { if counted(c) { 1 } else { 0 } }
        Decoded::Illegal(_) => 0,
    }
}
