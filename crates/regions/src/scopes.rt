// Document 02, T-11, and IHI 0070, 4.6: which rows 70 and 73 remove, whatever a command's fields hold above their widths.
ghost use Rattle.std.specs.Prelude.{◌≡◌, ◌<◌};
ghost use Rattle.regions.specs.Regions.{bytes};
ghost use Rattle.regions.specs.Scopes.{size_of, address_of, names_region, lies_in, spared, in_all, in_region};

use crate::Region;
use crate::fields::{bytes_of, is_known, is_last, size_code};

fn size_of(size: u64) -> u64
    ensures { result ≡ size_of size }
{
    words::part(size, 3, 0)
}

pub fn length_of(size: u64) -> u64
    ensures { (result ≡ bytes (size_of size)) × (0 < result) }
{
    bytes_of(size_of(size))
}

pub fn address_of(page: u64) -> u64
    ensures { result ≡ address_of page }
{
    words::part(page, 39, 0) * 0x1000
}

// Whether 73 can remove a row at all.
#[tactic(auto, unfolding(crate::specs::Scopes::names_region))]
pub fn names_region(page: u64, size: u64) -> bool
    ensures { result ≡ names_region page size }
{
    let code = size_of(size);
    is_known(code) & (address_of(page) % bytes_of(code) == 0)
}

// By distances, since the end of an ill-formed row may be past the words.
fn lies_in(a: u64, n: u64, b: u64, k: u64) -> bool
    ensures { result ≡ lies_in a n b k }
{
    if k < n {
        return false;
    }
    if a < b {
        return false;
    }
    a - b <= k - n
}

fn spared(row: Region, leaf: bool) -> bool
    ensures { result ≡ spared row leaf }
{
    leaf & !is_last(row)
}

// Whether 70 removes a row.
#[tactic(auto, unfolding(crate::specs::Scopes::in_all))]
pub fn in_all(row: Region) -> bool
    ensures { result ≡ in_all row }
{
    !(row.w0 == 0)
}

// Whether 73 removes a row, by the first byte and the length that its fields give, so that these need not be worked out for each
// row. Most rows begin elsewhere, so that this is asked first. Numbers and no struct of them: docs/PROMISES.md names the function.
pub fn in_region_of(row: Region, first: u64, length: u64, page: u64, size: u64, leaf: bool) -> bool
    requires { (first ≡ address_of page) × (length ≡ bytes (size_of size)) }
    ensures { result ≡ in_region row page size leaf }
{
    if row.w1 < first {
        return false;
    }
    if length <= row.w1 - first {
        return false;
    }
    if row.w0 == 0 {
        return false;
    }
    if !lies_in(row.w1, bytes_of(size_code(row)), first, length) {
        return false;
    }
    names_region(page, size) & !spared(row, leaf)
}

pub fn in_region(row: Region, page: u64, size: u64, leaf: bool) -> bool
    ensures { result ≡ in_region row page size leaf }
{
    in_region_of(row, address_of(page), length_of(size), page, size, leaf)
}
