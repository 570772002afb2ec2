// Document 02, T-11: a row's parts, its size, and which rows are well formed.
ghost use Rattle.std.specs.Prelude.{◌≡◌, ◌<◌};
ghost use Rattle.regions.specs.Regions.{is_known, log2_size, bytes, is_last, size_code, placed, well_formed};

use crate::{Region, places};

// How many sizes have a code.
const SIZES: u64 = 10;

// Bases have so many bits.
const ADDRESS_BITS: u64 = 52;

pub fn is_known(code: u64) -> bool
    ensures { result ≡ is_known code }
{
    code < SIZES
}

// A match and no table, which would be built anew at every use.
#[tactic(auto, unfolding(crate::specs::Regions::log2_size))]
fn log2_size(code: u64) -> u64
    ensures { (result ≡ log2_size code) × (result < 64) }
{
    match code {
        0 => 12,
        1 => 14,
        2 => 16,
        3 => 21,
        4 => 25,
        5 => 29,
        6 => 30,
        7 => 34,
        8 => 36,
        9 => 39,
        _ => 0,
    }
}

// How many bytes a size is.
pub fn bytes_of(code: u64) -> u64
    ensures { (result ≡ bytes code) × (0 < result) }
{
    words::power(log2_size(code))
}

pub fn is_last(row: Region) -> bool
    ensures { result ≡ is_last row }
{
    words::part(row.w0, places::LAST_HIGH, places::LAST_LOW) == 1
}

pub fn size_code(row: Region) -> u64
    ensures { result ≡ size_code row }
{
    words::part(row.w0, places::SIZE_HIGH, places::SIZE_LOW)
}

fn placed(row: Region) -> bool
    ensures { result ≡ placed row }
{
    (row.w1 < words::power(ADDRESS_BITS)) & (row.w1 % bytes_of(size_code(row)) == 0)
}

pub fn well_formed(row: Region) -> bool
    ensures { result ≡ well_formed row }
{
    (row.w0 == 0)
        | ((words::part(row.w0, places::VALID_HIGH, places::VALID_LOW) == 1)
            & (words::part(row.w0, places::ZERO_HIGH, places::ZERO_LOW) == 0)
            & is_known(size_code(row))
            & placed(row))
}
