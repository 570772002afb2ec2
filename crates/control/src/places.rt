// Where the parts of the control word stand.
use words::BitField;

pub const RD: BitField = BitField { high: 19, low: 0 };

pub const WR: BitField = BitField { high: 39, low: 20 };

pub const ERR: BitField = BitField { high: 46, low: 40 };

pub const GERROR: BitField = BitField { high: 47, low: 47 };

pub const GERRORN: BitField = BitField { high: 48, low: 48 };

pub const CMDQEN: BitField = BitField { high: 49, low: 49 };

pub const LOG2SIZE: BitField = BitField { high: 54, low: 50 };

pub const PENDING: BitField = BitField { high: 55, low: 55 };

pub const ZERO: BitField = BitField { high: 63, low: 56 };
