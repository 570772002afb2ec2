// Where the parts of the index word stand.
use words::BitField;

pub const RD: BitField = BitField { high: 19, low: 0 };

pub const WR: BitField = BitField { high: 39, low: 20 };

pub const OVERFLOW: BitField = BitField { high: 40, low: 40 };

pub const OVERFLOW_ACK: BitField = BitField { high: 41, low: 41 };

pub const LOG2SIZE: BitField = BitField { high: 46, low: 42 };

pub const ZERO: BitField = BitField { high: 63, low: 47 };
