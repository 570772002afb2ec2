// Document 01, A transaction: combining, by the numbers of the 29 consistent values.
#![tactic(auto)]

ghost use Rattle.std.specs.Prelude.{◌≡◌, true, ◌<◌};
ghost use Rattle.attributes.specs.Formats.{mem_attr_formed};
ghost use Rattle.combining.specs.Combining.{rank, sh_of_rank, number, mem_attr_of, sh_of, combine, combined};

use attributes::Attributes;

// The MemAttrs that have three numbers each.
const NORMALS: [u8; 8] = [6, 7, 9, 10, 11, 13, 14, 15];

// By MemAttr, its place in NORMALS; 8 if it has none. A search of NORMALS in its stead would be no plainer.
const PLACES: [u8; 16] = [8, 8, 8, 8, 8, 8, 0, 1, 8, 2, 3, 4, 8, 5, 6, 7];

// At a * 29 + b, what a and b combine to: flat, a number a cell, so that one computed test proves all 841.
const COMBINED: [u8; 841] = [
    0, 0, 0, 0, 0, 0, 0, 0, 0, 0, 0, 0, 0, 0, 0, 0, 0, 0, 0, 0, 0, 0, 0, 0, 0, 0, 0, 0, 0, 0, 1, 1,
    1, 1, 1, 1, 1, 1, 1, 1, 1, 1, 1, 1, 1, 1, 1, 1, 1, 1, 1, 1, 1, 1, 1, 1, 1, 1, 0, 1, 2, 2, 2, 2,
    2, 2, 2, 2, 2, 2, 2, 2, 2, 2, 2, 2, 2, 2, 2, 2, 2, 2, 2, 2, 2, 2, 2, 0, 1, 2, 3, 3, 3, 3, 3, 3,
    3, 3, 3, 3, 3, 3, 3, 3, 3, 3, 3, 3, 3, 3, 3, 3, 3, 3, 3, 3, 0, 1, 2, 3, 4, 4, 4, 4, 4, 4, 4, 4,
    4, 4, 4, 4, 4, 4, 4, 4, 4, 4, 4, 4, 4, 4, 4, 4, 4, 0, 1, 2, 3, 4, 5, 6, 7, 5, 6, 7, 4, 4, 4, 5,
    6, 7, 5, 6, 7, 4, 4, 4, 5, 6, 7, 5, 6, 7, 0, 1, 2, 3, 4, 6, 6, 7, 6, 6, 7, 4, 4, 4, 6, 6, 7, 6,
    6, 7, 4, 4, 4, 6, 6, 7, 6, 6, 7, 0, 1, 2, 3, 4, 7, 7, 7, 7, 7, 7, 4, 4, 4, 7, 7, 7, 7, 7, 7, 4,
    4, 4, 7, 7, 7, 7, 7, 7, 0, 1, 2, 3, 4, 5, 6, 7, 8, 9, 10, 4, 4, 4, 5, 6, 7, 8, 9, 10, 4, 4, 4,
    5, 6, 7, 8, 9, 10, 0, 1, 2, 3, 4, 6, 6, 7, 9, 9, 10, 4, 4, 4, 6, 6, 7, 9, 9, 10, 4, 4, 4, 6, 6,
    7, 9, 9, 10, 0, 1, 2, 3, 4, 7, 7, 7, 10, 10, 10, 4, 4, 4, 7, 7, 7, 10, 10, 10, 4, 4, 4, 7, 7,
    7, 10, 10, 10, 0, 1, 2, 3, 4, 4, 4, 4, 4, 4, 4, 11, 12, 13, 11, 12, 13, 11, 12, 13, 11, 12, 13,
    11, 12, 13, 11, 12, 13, 0, 1, 2, 3, 4, 4, 4, 4, 4, 4, 4, 12, 12, 13, 12, 12, 13, 12, 12, 13,
    12, 12, 13, 12, 12, 13, 12, 12, 13, 0, 1, 2, 3, 4, 4, 4, 4, 4, 4, 4, 13, 13, 13, 13, 13, 13,
    13, 13, 13, 13, 13, 13, 13, 13, 13, 13, 13, 13, 0, 1, 2, 3, 4, 5, 6, 7, 5, 6, 7, 11, 12, 13,
    14, 15, 16, 14, 15, 16, 11, 12, 13, 14, 15, 16, 14, 15, 16, 0, 1, 2, 3, 4, 6, 6, 7, 6, 6, 7,
    12, 12, 13, 15, 15, 16, 15, 15, 16, 12, 12, 13, 15, 15, 16, 15, 15, 16, 0, 1, 2, 3, 4, 7, 7, 7,
    7, 7, 7, 13, 13, 13, 16, 16, 16, 16, 16, 16, 13, 13, 13, 16, 16, 16, 16, 16, 16, 0, 1, 2, 3, 4,
    5, 6, 7, 8, 9, 10, 11, 12, 13, 14, 15, 16, 17, 18, 19, 11, 12, 13, 14, 15, 16, 17, 18, 19, 0,
    1, 2, 3, 4, 6, 6, 7, 9, 9, 10, 12, 12, 13, 15, 15, 16, 18, 18, 19, 12, 12, 13, 15, 15, 16, 18,
    18, 19, 0, 1, 2, 3, 4, 7, 7, 7, 10, 10, 10, 13, 13, 13, 16, 16, 16, 19, 19, 19, 13, 13, 13, 16,
    16, 16, 19, 19, 19, 0, 1, 2, 3, 4, 4, 4, 4, 4, 4, 4, 11, 12, 13, 11, 12, 13, 11, 12, 13, 20,
    21, 22, 20, 21, 22, 20, 21, 22, 0, 1, 2, 3, 4, 4, 4, 4, 4, 4, 4, 12, 12, 13, 12, 12, 13, 12,
    12, 13, 21, 21, 22, 21, 21, 22, 21, 21, 22, 0, 1, 2, 3, 4, 4, 4, 4, 4, 4, 4, 13, 13, 13, 13,
    13, 13, 13, 13, 13, 22, 22, 22, 22, 22, 22, 22, 22, 22, 0, 1, 2, 3, 4, 5, 6, 7, 5, 6, 7, 11,
    12, 13, 14, 15, 16, 14, 15, 16, 20, 21, 22, 23, 24, 25, 23, 24, 25, 0, 1, 2, 3, 4, 6, 6, 7, 6,
    6, 7, 12, 12, 13, 15, 15, 16, 15, 15, 16, 21, 21, 22, 24, 24, 25, 24, 24, 25, 0, 1, 2, 3, 4, 7,
    7, 7, 7, 7, 7, 13, 13, 13, 16, 16, 16, 16, 16, 16, 22, 22, 22, 25, 25, 25, 25, 25, 25, 0, 1, 2,
    3, 4, 5, 6, 7, 8, 9, 10, 11, 12, 13, 14, 15, 16, 17, 18, 19, 20, 21, 22, 23, 24, 25, 26, 27,
    28, 0, 1, 2, 3, 4, 6, 6, 7, 9, 9, 10, 12, 12, 13, 15, 15, 16, 18, 18, 19, 21, 21, 22, 24, 24,
    25, 27, 27, 28, 0, 1, 2, 3, 4, 7, 7, 7, 10, 10, 10, 13, 13, 13, 16, 16, 16, 19, 19, 19, 22, 22,
    22, 25, 25, 25, 28, 28, 28,
];

fn rank(s: u64) -> u64
    ensures { (result ≡ rank s) × (result < 3) }
{
    match s {
        2 => 2,
        3 => 1,
        _ => 0,
    }
}

// The number of a MemAttr and an SH.
#[tactic(auto, using(crate::proofs::Formed::mem_attr_lt), unfolding(crate::specs::Combining::number))]
pub fn number(m: u64, s: u64) -> u64
    requires { mem_attr_formed m ≡ true }
    ensures { result ≡ number m s }
{
    match m {
        0..=3 => m,
        5 => 4,
        _ => 5 + 3 * u64::from(PLACES[m as usize]) + rank(s),
    }
}

fn sh_of_rank(r: u64) -> u64
    ensures { result ≡ sh_of_rank r }
{
    match r {
        2 => 2,
        1 => 3,
        _ => 0,
    }
}

// The MemAttr of a number.
#[tactic(auto, unfolding(crate::specs::Combining::mem_attr_of))]
pub fn mem_attr_of(c: u64) -> u64
    requires { c < 29 }
    ensures { result ≡ mem_attr_of c }
{
    match c {
        0..=3 => c,
        4 => 5,
        _ => u64::from(NORMALS[((c - 5) / 3) as usize]),
    }
}

// The SH of a number.
#[tactic(auto, unfolding(crate::specs::Combining::sh_of))]
pub fn sh_of(c: u64) -> u64
    ensures { result ≡ sh_of c }
{
    if c < 5 {
        return 2;
    }
    sh_of_rank((c - 5) % 3)
}

// The number of what two numbers combine to.
pub fn combine(a: u64, b: u64) -> u64
    requires { (a < 29) × (b < 29) }
    ensures { result ≡ combine a b }
{
    let at = (a * 29 + b) as usize;
    u64::from(COMBINED[at])
}

// Attributes with the MemAttr and the SH of a second stage.
#[tactic(auto, using(crate::proofs::Numbers::number_lt, crate::proofs::Laws::combine_lt), unfolding(crate::specs::Combining::combined))]
pub fn combined(a: Attributes, m: u64, s: u64) -> Attributes
    requires { (mem_attr_formed a.memattr ≡ true) × (mem_attr_formed m ≡ true) }
    ensures { result ≡ combined a m s }
{
    let c = combine(number(a.memattr, a.sh), number(m, s));
    Attributes {
        memattr: mem_attr_of(c),
        sh: sh_of(c),
        hints: a.hints,
    }
}
