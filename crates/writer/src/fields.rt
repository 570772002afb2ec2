// Document 02, T-10: the words that ask for a command.
ghost use Rattle.std.specs.Prelude.{◌≡◌, [], ◌∷◌, ◌≤◌, eqb, length, get_or};
ghost use Rattle.words.specs.Ranges.{all};
ghost use Rattle.writer.specs.Layouts.{wide, bit, stream, substream, range, leaf, vmid, asid, page, ranged_by, asking, fields_of};

use commands::{Command, Target};

fn bit(on: bool) -> u64
    ensures { result ≡ bit on }
{
    if on {
        return 1;
    }
    0
}

fn by_stream(code: u64, s: u64, u: u64, r: u64, l: u64) -> [u64; 16]
    ensures { result ≡ asking code ((stream, s) ∷ (substream, u) ∷ (range, r) ∷ (leaf, l) ∷ []) }
{
    [code, s, u, r, l, 0, 0, 0, 0, 0, 0, 0, 0, 0, 0, 0]
}

fn by_id(code: u64, v: u64, a: u64) -> [u64; 16]
    ensures { result ≡ asking code ((vmid, v) ∷ (asid, a) ∷ []) }
{
    [code, 0, 0, 0, 0, v, a, 0, 0, 0, 0, 0, 0, 0, 0, 0]
}

fn by_address(code: u64, v: u64, a: u64, t: Target) -> [u64; 16]
    ensures { result ≡ asking code ((vmid, v) ∷ (asid, a) ∷ (page, t.page) ∷ ranged_by t) }
{
    let l = bit(t.leaf);
    let t128 = bit(t.ttl128);
    [
        code, 0, 0, 0, l, v, a, t.page, 0, t.num, t.scale, t.tg, t.ttl, t128, 0, 0,
    ]
}

// The words that ask for a command: what is read is written so.
pub fn fields_of(command: Command) -> [u64; 16]
    ensures { result ≡ fields_of command }
{
    match command {
        Command::PrefetchConfig => by_id(0x01, 0, 0),
        Command::PrefetchAddr => by_id(0x02, 0, 0),
        Command::CfgiSte(s, l) => by_stream(0x03, s, 0, 0, bit(l)),
        Command::CfgiSteRange(s, r) => by_stream(0x04, s, 0, r, 0),
        Command::CfgiCd(u, s, l) => by_stream(0x05, s, u, 0, bit(l)),
        Command::CfgiCdAll(s) => by_stream(0x06, s, 0, 0, 0),
        Command::TlbiNhAll(v) => by_id(0x10, v, 0),
        Command::TlbiNhAsid(v, a) => by_id(0x11, v, a),
        Command::TlbiNhVa(v, a, t) => by_address(0x12, v, a, t),
        Command::TlbiNhVaa(v, t) => by_address(0x13, v, 0, t),
        Command::TlbiEl2All => by_id(0x20, 0, 0),
        Command::TlbiEl2Asid(a) => by_id(0x21, 0, a),
        Command::TlbiEl2Va(a, t) => by_address(0x22, 0, a, t),
        Command::TlbiEl2Vaa(t) => by_address(0x23, 0, 0, t),
        Command::TlbiS12Vmall(v) => by_id(0x28, v, 0),
        Command::TlbiS2Ipa(v, t) => by_address(0x2A, v, 0, t),
        Command::TlbiNsnhAll => by_id(0x30, 0, 0),
        Command::Sync(c) => [0x46, 0, 0, 0, 0, 0, 0, 0, c, 0, 0, 0, 0, 0, 0, 0],
        Command::DptiAll => by_id(0x70, 0, 0),
        Command::DptiPa(p, s, l) => [0x73, 0, 0, 0, bit(l), 0, 0, p, 0, 0, 0, 0, 0, 0, s, 0],
    }
}

// Whether the sixteen words are the same.
pub fn same(a: [u64; 16], d: &[u64]) -> bool
    requires { wide ≤ length d.now }
    ensures { result ≡ all wide (λ k. eqb (get_or a k 0) (get_or d.now k 0)) }
{
    for k in 0..crate::WIDE {
        if a[k] != d[k] {
            return false;
        }
    }
    true
}
