// What the night began with. Row 0 is a stream of the alarm guest, row 1 a mapping of the network card.

// LOG2SIZE 0, RD 0, WR 1, CMDQEN 1.
const CONTROL: u64 = 0x2_0000_0010_0000;

// S1P, S2P, ASID16 and VMID16.
pub const FEATURES: u64 = 0xf;

pub const MEMORY: [u64; 9] = [
    CONTROL,
    0x9,
    0x40_0000_0000_0001,
    0,
    0,
    0xf_0007_0005_018d,
    0,
    0x8000_0000,
    0x4000_0000,
];

pub const QUEUE: [u8; 16] = [0x12, 0, 0, 0, 5, 0, 7, 0, 0, 0, 0, 0x80, 0, 0, 0, 0];

// The two stores that the unit makes, RD first and then the row: what is there after so many of them.
pub fn rd_first(stores: u64, whole: &[u64; 9]) -> [u64; 9] {
    let mut left = MEMORY;
    if 0 < stores {
        left[0] = whole[0];
    }
    if 1 < stores {
        left[5] = whole[5];
    }
    left
}
