// What a unit has whose commands are tried. E2H is a setting, and off.
use commands::Features;

pub const NONE: Features = Features {
    s1p: false,
    s2p: false,
    asid16: false,
    vmid16: false,
    hyp: false,
    e2h: false,
    ril: false,
    dpt: false,
};

pub const ALL: Features = Features {
    s1p: true,
    s2p: true,
    asid16: true,
    vmid16: true,
    hyp: true,
    e2h: false,
    ril: true,
    dpt: true,
};
