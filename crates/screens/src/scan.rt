// Rows by a test: the next one that passes, looked for in groups of eight, in loops over plain numbers.
ghost use Rattle.std.specs.Prelude.{◌≡◌, ℕ, ◌+◌, ◌*◌, ◌<◌, ◌≤◌, Bool, false, ◌||◌, length};
ghost use Rattle.rows.specs.declared.Row.{Row};
ghost use Rattle.image.specs.Image.{row_at};
ghost use Rattle.screens.specs.Screens.{any_four, NoneOfEight, lowest_from, Within, Skips};

use rows::Row;

// A test of few instructions and no branch, so that a group of rows is asked by vector instructions.
pub trait RowTest {
    ghost passes: { Self → Row → Bool };

    fn passes(&self, row: Row) -> bool
        ensures { result ≡ passes self.now row };
}

// Whether one of the four rows from row i on passes.
pub fn four<T: RowTest>(kept: &[u64], test: &T, i: usize) -> bool
    requires { 4 * i + 17 ≤ length kept.now }
    ensures { result ≡ any_four (λ j. T.passes test.now (row_at kept.now j)) i }
{
    test.passes(image::row_at(kept, i))
        | test.passes(image::row_at(kept, i + 1))
        | test.passes(image::row_at(kept, i + 2))
        | test.passes(image::row_at(kept, i + 3))
}

// Whether one of the eight does.
pub fn eight<T: RowTest>(kept: &[u64], test: &T, i: usize) -> bool
    requires { 4 * i + 33 ≤ length kept.now }
    ensures { result ≡ (any_four (λ j. T.passes test.now (row_at kept.now j)) i || any_four (λ j. T.passes test.now (row_at kept.now j)) (i + 4)) }
{
    four(kept, test, i) | four(kept, test, i + 4)
}

// Goes past numbers, eight at a time, of which none may pass. A `while`, since over numbers of groups it would be no plainer.
pub fn skip<F: Fn(usize) -> bool>(from: usize, to: usize, may_pass: F) -> usize
    requires order { from ≤ to }
    requires may_pass { (i : ℕ) → from ≤ i → i + 8 ≤ to → F.pre may_pass i }
    ensures { (p : ℕ → Bool) → ((i : ℕ) → from ≤ i → i + 8 ≤ to → F.post may_pass i false → NoneOfEight p i) → Skips p from to result }
{
    let mut i = from;
    while 8 <= to - i {
        if may_pass(i) {
            return i;
        }
        i += 8;
    }
    i
}

// The lowest row from `from` on, and below `to`, that passes.
pub fn next<T: RowTest>(kept: &[u64], test: &T, from: usize, to: usize) -> Option<usize>
    requires { Within kept.now from to }
    ensures { result ≡ lowest_from (λ j. T.passes test.now (row_at kept.now j)) from to }
{
    let at = skip(from, to, |i| eight(kept, test, i));
    words::lowest_in(at, to, |i| test.passes(image::row_at(kept, i)))
}
