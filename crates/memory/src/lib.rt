// The memory that a run works on, in a run's own terms. The definitions and their laws are in specs/ and proofs/; the code has no more
// than the two tables, lent together.
#![tactic(auto)]

ghost use Rattle.memory.specs.Memory.{both, Whole};

// The kept memory and the second table, lent to be read: all rows of the kept memory are there.
#[derive(Clone, Copy)]
pub struct Tables<'a> {
    pub kept: &'a [u64],
    pub table: &'a [u64],
    pub ghost whole: { Whole (both kept.now table.now) },
}
