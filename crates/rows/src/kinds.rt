// What a row caches, by the two bits of its kind.
#[derive(Clone, Copy, PartialEq, Eq)]
pub enum Kind {
    Ste = 0,
    Cd = 1,
    Stage1 = 2,
    Stage2 = 3,
}
