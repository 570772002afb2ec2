// Commands: which are legal, and what they are.
#![tactic(auto)]

mod decoding;
mod feature_bits;
pub mod fields;
mod formats;

pub use decoding::{decode, decode_at, syncs_of};
pub use feature_bits::features_of;
pub use fields::{Coded, Field};

// What the unit is told to have.
#[derive(Clone, Copy)]
pub struct Features {
    pub s1p: bool,
    pub s2p: bool,
    pub asid16: bool,
    pub vmid16: bool,
    // Document 02, T-05: a feature, and a setting.
    pub hyp: bool,
    pub e2h: bool,
    // Document 02, T-07.
    pub ril: bool,
    // Document 02, T-11.
    pub dpt: bool,
}

// What a command by address aims at: Leaf, and the address without its low 12 bits.
#[derive(Clone, Copy)]
pub struct Target {
    pub leaf: bool,
    pub page: u64,
    // Document 02, T-07: a range from there on, unless TG is 0. TTL and TTL128 are hints.
    pub num: u64,
    pub scale: u64,
    pub tg: u64,
    pub ttl: u64,
    pub ttl128: bool,
}

// Which of the range's fields a command uses, as far as its other bits depend on it: TG is not 0, TTL is not 0.
#[derive(Clone, Copy)]
pub struct Shape {
    pub ranged: bool,
    pub hinted: bool,
}

// A legal command, with its fields as they stand.
#[derive(Clone, Copy)]
pub enum Command {
    PrefetchConfig,
    PrefetchAddr,
    // StreamID, Leaf
    CfgiSte(u64, bool),
    // StreamID, Range
    CfgiSteRange(u64, u64),
    // SubstreamID, StreamID, Leaf
    CfgiCd(u64, u64, bool),
    // StreamID
    CfgiCdAll(u64),
    // VMID
    TlbiNhAll(u64),
    // VMID, ASID
    TlbiNhAsid(u64, u64),
    // VMID, ASID
    TlbiNhVa(u64, u64, Target),
    // VMID
    TlbiNhVaa(u64, Target),
    // Document 02, T-05: the hypervisor's own.
    TlbiEl2All,
    // ASID
    TlbiEl2Asid(u64),
    // ASID
    TlbiEl2Va(u64, Target),
    TlbiEl2Vaa(Target),
    // VMID
    TlbiS12Vmall(u64),
    // VMID
    TlbiS2Ipa(u64, Target),
    TlbiNsnhAll,
    // CS
    Sync(u64),
    // Document 02, T-11: the device permission table's.
    DptiAll,
    // Address without its low 12 bits, SIZE, Leaf
    DptiPa(u64, u64, bool),
}

// Document 02, T-09: why a command is illegal.
#[derive(Clone, Copy)]
pub enum Reason {
    UnknownCode,
    FeatureAbsent,
    ReservedBit,
    BadParameter,
}

// What sixteen bytes of the queue are.
#[derive(Clone, Copy)]
pub enum Decoded {
    Legal(Command),
    Illegal(Reason),
}
