// Document 01, Commands and their scopes, with document 02, T-05, T-07 and T-11: the bits that each code names.
ghost use Rattle.std.specs.Prelude.{◌≡◌, [], ◌+◌, ◌/◌, ◌≤◌, ◌<◌, get_or};
ghost use Rattle.words.specs.Parts.{part, joined};
ghost use Rattle.commands.specs.Formats.{how_many, shape_of, named_at, MasksOf};
ghost use Rattle.commands.specs.Masks.{named_masks, range_masks};
ghost use Rattle.commands.specs.Decoding.{clean};

use crate::{Coded, Features, Shape, fields};

// How many codes there are.
pub const CODES: usize = 20;

// The bits that may be set in a command's low and high word, a pair for each code, with every feature and no range. It is flat: a
// table of pairs takes the prover five times as long.
const NAMED: [u64; 2 * CODES] = [
    0xffff_ffff_ffff_fbff, // 01, low
    0xffff_ffff_ffff_ffff, // 01, high
    0xffff_ffff_ffff_fbff, // 02, low
    0xffff_ffff_ffff_ffff, // 02, high
    0xffff_ffff_0000_00ff, // 03, low
    0x0000_0000_0000_0001, // 03, high
    0xffff_ffff_0000_00ff, // 04, low
    0x0000_0000_0000_001f, // 04, high
    0xffff_ffff_ffff_f0ff, // 05, low
    0x0000_0000_0000_0001, // 05, high
    0xffff_ffff_0000_00ff, // 06, low
    0x0000_0000_0000_0000, // 06, high
    0x0000_ffff_0000_00ff, // 10, low
    0x0000_0000_0000_0000, // 10, high
    0xffff_ffff_0000_00ff, // 11, low
    0x0000_0000_0000_0000, // 11, high
    0xffff_ffff_0000_00ff, // 12, low
    0xffff_ffff_ffff_f001, // 12, high
    0x0000_ffff_0000_00ff, // 13, low
    0xffff_ffff_ffff_f001, // 13, high
    0x0000_0000_0000_00ff, // 20, low
    0x0000_0000_0000_0000, // 20, high
    0xffff_0000_0000_00ff, // 21, low
    0x0000_0000_0000_0000, // 21, high
    0xffff_0000_0000_00ff, // 22, low
    0xffff_ffff_ffff_f001, // 22, high
    0x0000_0000_0000_00ff, // 23, low
    0xffff_ffff_ffff_f001, // 23, high
    0x0000_ffff_0000_00ff, // 28, low
    0x0000_0000_0000_0000, // 28, high
    0x0000_ffff_0000_00ff, // 2A, low
    0x000f_ffff_ffff_f001, // 2A, high
    0x0000_0000_0000_00ff, // 30, low
    0x0000_0000_0000_0000, // 30, high
    0xffff_ffff_0fc0_30ff, // 46, low
    0xffff_ffff_ffff_ffff, // 46, high
    0x0000_0000_0000_00ff, // 70, low
    0x0000_0000_0000_0000, // 70, high
    0x0000_0000_0000_00ff, // 73, low
    0x00ff_ffff_ffff_ff01, // 73, high
];

// The places of 10 and 13, which name a VMID only with S2P.
const NH_FIRST: usize = 6;

const NH_LAST: usize = 9;

// What a command's range makes of its other bits.
fn shape_of(c: Coded) -> Shape
    ensures { result ≡ shape_of (joined c.lo c.hi) }
{
    Shape {
        ranged: !(fields::TG.of(c) == 0),
        hinted: !(fields::TTL.of(c) == 0),
    }
}

// The bits of a range that a command with it may set: TTL128 only with a TTL.
fn range_masks(f: Features, s: Shape, k: usize) -> [u64; 2]
    ensures { result ≡ range_masks f s k }
{
    let by_address = (k == 8) | (k == 9) | (k == 12) | (k == 13) | (k == 15);
    if !(by_address & f.ril & s.ranged) {
        return [0, 0];
    }
    if s.hinted {
        return [0x01f1_f000, 0xf80];
    }
    [0x01f1_f000, 0xf00]
}

// The pair of the k-th code. Each place is a number as it stands, so that no table is built where the pair is asked for.
fn named(k: usize) -> [u64; 2]
    requires { k < how_many }
    ensures { result ≡ get_or named_masks k [] }
{
    match k {
        0 => [NAMED[0], NAMED[1]],
        1 => [NAMED[2], NAMED[3]],
        2 => [NAMED[4], NAMED[5]],
        3 => [NAMED[6], NAMED[7]],
        4 => [NAMED[8], NAMED[9]],
        5 => [NAMED[10], NAMED[11]],
        6 => [NAMED[12], NAMED[13]],
        7 => [NAMED[14], NAMED[15]],
        8 => [NAMED[16], NAMED[17]],
        9 => [NAMED[18], NAMED[19]],
        10 => [NAMED[20], NAMED[21]],
        11 => [NAMED[22], NAMED[23]],
        12 => [NAMED[24], NAMED[25]],
        13 => [NAMED[26], NAMED[27]],
        14 => [NAMED[28], NAMED[29]],
        15 => [NAMED[30], NAMED[31]],
        16 => [NAMED[32], NAMED[33]],
        17 => [NAMED[34], NAMED[35]],
        18 => [NAMED[36], NAMED[37]],
        _ => [NAMED[38], NAMED[39]],
    }
}

// The masks of the k-th code under the features: without S2P the VMID of 10 to 13 is Reserved.
fn masks(f: Features, s: Shape, k: usize) -> [u64; 2]
    requires { k < how_many }
    ensures { MasksOf (named_at f s k) result }
{
    let named = named(k);
    let range = range_masks(f, s, k);
    if (NH_FIRST <= k) & (k <= NH_LAST) & !f.s2p {
        return [
            (named[0] & 0xffff_0000_ffff_ffff) | range[0],
            named[1] | range[1],
        ];
    }
    [named[0] | range[0], named[1] | range[1]]
}

// Each bit that is set is one that the k-th code names.
pub fn clean(f: Features, k: usize, c: Coded) -> bool
    requires { k < how_many }
    ensures { result ≡ clean f k (joined c.lo c.hi) }
{
    let m = masks(f, shape_of(c), k);
    (c.lo & m[0] == c.lo) & (c.hi & m[1] == c.hi)
}
