// Where the parts of a row stand in their word.
use words::BitField;

// Word 0.
pub const VALID: BitField = BitField { high: 0, low: 0 };

pub const KIND: BitField = BitField { high: 2, low: 1 };

pub const LAST: BitField = BitField { high: 3, low: 3 };

pub const GLOBAL: BitField = BitField { high: 4, low: 4 };

pub const SPAN: BitField = BitField { high: 10, low: 5 };

// Document 02, T-05.
pub const MARK: BitField = BitField { high: 12, low: 11 };

pub const VMID: BitField = BitField { high: 31, low: 16 };

pub const ASID: BitField = BitField { high: 47, low: 32 };

// Its payload in a last-level STE row.
pub const MTCFG: BitField = BitField { high: 48, low: 48 };

pub const NEW_MEMATTR: BitField = BitField { high: 52, low: 49 };

pub const SHCFG: BitField = BitField { high: 54, low: 53 };

pub const ALLOCCFG: BitField = BitField { high: 58, low: 55 };

pub const INSTCFG: BitField = BitField { high: 60, low: 59 };

pub const PRIVCFG: BitField = BitField { high: 62, low: 61 };

// Its payload in a last-level stage 1 or stage 2 row.
pub const MEMATTR: BitField = BitField { high: 51, low: 48 };

pub const SH: BitField = BitField { high: 53, low: 52 };

pub const HINTS: BitField = BitField { high: 59, low: 54 };

// Word 1.
pub const STREAM: BitField = BitField { high: 31, low: 0 };

pub const SUBSTREAM: BitField = BitField { high: 51, low: 32 };

pub const CONFIG: BitField = BitField { high: 54, low: 52 };
