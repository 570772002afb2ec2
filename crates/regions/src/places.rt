// Where the parts of word 0 stand: their highest and lowest bits.
pub const VALID_HIGH: u64 = 0;

pub const VALID_LOW: u64 = 0;

pub const LAST_HIGH: u64 = 1;

pub const LAST_LOW: u64 = 1;

pub const SIZE_HIGH: u64 = 5;

pub const SIZE_LOW: u64 = 2;

pub const ZERO_HIGH: u64 = 63;

pub const ZERO_LOW: u64 = 6;
