// The features as bits of one word.
ghost use Rattle.std.specs.Prelude.{◌≡◌};
ghost use Rattle.commands.specs.FeatureBits.{features_of};

use crate::Features;

pub fn features_of(bits: u64) -> Features
    ensures { result ≡ features_of bits }
{
    Features {
        s1p: words::part(bits, 0, 0) == 1,
        s2p: words::part(bits, 1, 1) == 1,
        asid16: words::part(bits, 2, 2) == 1,
        vmid16: words::part(bits, 3, 3) == 1,
        hyp: words::part(bits, 4, 4) == 1,
        ril: words::part(bits, 5, 5) == 1,
        dpt: words::part(bits, 6, 6) == 1,
        e2h: words::part(bits, 7, 7) == 1,
    }
}
