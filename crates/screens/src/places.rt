// The parts of words 0 and 1 that screens ask about, by their places in a row: the bits of each, and numbers in their places.
ghost use Rattle.std.specs.Prelude.{◌≡◌, ◌^◌, ◌≤◌};
ghost use Rattle.screens.specs.Places.{of_vmid, of_asid};

use rows::{Kind, Mark, places};

// Word 0.
pub const KIND: u64 = (2 << places::KIND.high) - (1 << places::KIND.low);

// Kind's upper bit, which both stages have and no other.
pub const STAGES: u64 = 1 << places::KIND.high;

pub const LAST: u64 = 1 << places::LAST.low;

pub const GLOBAL: u64 = 1 << places::GLOBAL.low;

pub const MARK: u64 = (2 << places::MARK.high) - (1 << places::MARK.low);

pub const VMID: u64 = (2 << places::VMID.high) - (1 << places::VMID.low);

pub const ASID: u64 = (2 << places::ASID.high) - (1 << places::ASID.low);

// Word 1.
pub const STREAM: u64 = (2 << places::STREAM.high) - (1 << places::STREAM.low);

// Kinds.
pub const CD: u64 = (Kind::Cd as u64) << places::KIND.low;

pub const STAGE1: u64 = (Kind::Stage1 as u64) << places::KIND.low;

pub const STAGE2: u64 = (Kind::Stage2 as u64) << places::KIND.low;

// Marks.
pub const EL2: u64 = (Mark::El2 as u64) << places::MARK.low;

pub const EL2_E2H: u64 = (Mark::El2E2h as u64) << places::MARK.low;

// Identifiers. A row has 16 bits of one, so that none has a wider one, and any screen is right for it.
pub fn of_vmid(id: u64) -> u64
    ensures { (result ≡ of_vmid id) × (result ≤ 2 ^ 32) }
{
    words::part(id, 15, 0) * (1 << places::VMID.low)
}

pub fn of_asid(id: u64) -> u64
    ensures { (result ≡ of_asid id) × (result ≤ 2 ^ 48) }
{
    words::part(id, 15, 0) * (1 << places::ASID.low)
}
