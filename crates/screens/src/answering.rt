// What word 0 of a row that may answer, a last-level and unmarked one, has under its masks.
ghost use Rattle.std.specs.Prelude.{◌≡◌};
ghost use Rattle.screens.specs.Places.{answer_mask, stream_mask};
ghost use Rattle.screens.specs.Screens.{under};
ghost use Rattle.screens.specs.declared.Screen.TheVariants.{Named};

use crate::{Screen, places, under};

pub const KIND: u64 = places::KIND + places::LAST + places::MARK;

pub const KIND_VMID: u64 = KIND + places::VMID;

// By the kind, with the VMID 0.
pub const STE: u64 = places::LAST;

pub const CD: u64 = places::LAST + places::CD;

pub const STAGE1: u64 = places::LAST + places::STAGE1;

pub const STAGE2: u64 = places::LAST + places::STAGE2;

// Rows of STEs or CDs, by the value of word 0, and of a stream.
pub fn of_stream(value: u64, stream: u64) -> Screen
    ensures { result ≡ Named (under answer_mask value) (under stream_mask stream) }
{
    Screen::Named(under(KIND, value), under(places::STREAM, stream))
}
