// Document 02, T-13: quick tests that let a row through if it may be one that is looked for, and the next row that a test lets
// through. The rows are looked at in loops over plain numbers; whether such a row is the one, its own rule says.
#![tactic(auto)]

pub mod answering;
pub mod places;
mod row_tests;
mod scan;
mod used;

ghost use Rattle.std.specs.Prelude.{◌≡◌, ◌==◌, ℕ, ◌<◌, ◌≤◌, Bool, true, bit_and};
ghost use Rattle.screens.specs.Screens.{ahead, under, lowest_from, next_of, passes_at, Within};

use row_tests::{About, Marked, Named, Near, Streaming};
use used::Used;

// What a word must be under a mask.
#[derive(Clone, Copy)]
pub struct Pattern {
    pub mask: u64,
    pub value: u64,
}

// The value under the mask.
pub fn under(mask: u64, value: u64) -> Pattern
    ensures { result ≡ under mask value }
{
    Pattern { mask, value }
}

impl Pattern {
    fn fits(self, word: u64) -> bool
        ensures { result ≡ (bit_and word self.mask == self.value) }
    {
        word & self.mask == self.value
    }
}

// What a row must be like.
#[derive(Clone, Copy)]
pub enum Screen {
    // No row is let through.
    Nobody,
    // By word 0.
    Marked(Pattern),
    // By words 0 and 1.
    Named(Pattern, Pattern),
    // By the stream: a used row of an STE or a CD.
    Streaming(Pattern),
    // By word 0, and an address that the row covers.
    Covering {
        word0: Pattern,
        address: u64,
    },
    // By word 0, and a byte and so many before it, of which the row covers one.
    Reaching {
        word0: Pattern,
        last: u64,
        more: u64,
    },
}

// How far a is ahead of b, around 2^64.
fn ahead(a: u64, b: u64) -> u64
    ensures { result ≡ ahead a b }
{
    std::num::wrapping_sub_u64(a, b)
}

// The lowest row from `from` on, and below `to`, that a screen lets through.
pub fn next(kept: &[u64], s: Screen, from: usize, to: usize) -> Option<usize>
    requires { Within kept.now from to }
    ensures { result ≡ next_of s kept.now from to }
{
    match s {
        Screen::Nobody => None,
        Screen::Marked(word0) => scan::next(kept, &Marked { word0 }, from, to),
        Screen::Named(word0, word1) => scan::next(kept, &Named { word0, word1 }, from, to),
        Screen::Streaming(stream) => scan::next(kept, &Streaming { stream }, from, to),
        Screen::Covering { word0, address } => {
            let near = Used {
                test: Near { address },
            };
            used::next_of_both(kept, &near, &Marked { word0 }, from, to)
        }
        Screen::Reaching { word0, last, more } => {
            let about = Used {
                test: About { last, more },
            };
            used::next_of_both(kept, &about, &Marked { word0 }, from, to)
        }
    }
}

// The lowest row from `from` on, and below `to`, that passes. Only rows that a screen lets through are asked.
pub fn find<F: Fn(usize) -> bool>(
    kept: &[u64],
    s: Screen,
    from: usize,
    to: usize,
    passes: F,
) -> Option<usize>
    requires rows { Within kept.now from to }
    requires passes { (i : ℕ) → from ≤ i → i < to → F.pre passes i }
    ensures { (p : ℕ → Bool) → ((i : ℕ) (b : Bool) → from ≤ i → i < to → F.post passes i b → b ≡ p i) → ((i : ℕ) → i < to → p i ≡ true → passes_at s kept.now i ≡ true) → result ≡ lowest_from p from to }
{
    words::lowest_among(from, to, |i| next(kept, s, i, to), passes)
}
