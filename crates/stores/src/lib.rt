// A list of stores to lent memory, made one at a time and in its order, as far as an allowance lasts.
#![tactic(auto)]

ghost use Rattle.std.specs.Prelude.{◌≡◌, ◌<◌, length, min, set};
ghost use Rattle.stores.specs.Stores.{Within, after_stores};

// A word and its place.
#[derive(Clone, Copy)]
pub struct Store {
    pub at: usize,
    pub value: u64,
}

// Makes one store, and no other.
fn step(kept: &mut [u64], store: Store)
    requires { store.at < length kept.old }
    ensures { kept.new ≡ set kept.old store.at store.value }
{
    kept[store.at] = store.value;
}

// Makes the stores from the first on, while the allowance lasts, and says how many.
pub fn make(kept: &mut [u64], stores: &[Store], allowance: u64) -> u64
    requires { Within (length kept.old) stores.now }
    ensures counted { result ≡ min allowance (length stores.now) }
    ensures leaves { kept.new ≡ after_stores allowance stores.now kept.old }
{
    let mut made = 0;
    for store in stores {
        if made == allowance {
            return made;
        }
        step(&mut *kept, *store);
        made += 1;
    }
    made
}
