// Words of 64 bits: powers of two, parts, spans, and words in bytes; and the lowest number that passes a test.
#![tactic(auto)]

ghost use Rattle.std.specs.Prelude.{◌≡◌, ℕ, Bool, true, Option, ◌+◌, ◌-◌, ◌^◌, ◌≤◌, ◌<◌, nat_lt, length};
ghost use Rattle.words.specs.Parts.{part, put};
ghost use Rattle.words.specs.Spans.{overlap};
ghost use Rattle.words.specs.Bytes.{word_at, with_word};
ghost use Rattle.words.specs.Search.{lowest};

// The n-th power of two.
pub fn power(n: u64) -> u64
    requires { n < 64 }
    ensures { (result ≡ 2 ^ n) × (0 < result) }
{
    1 << n
}

// The number in the bits h down to l of w: for bits that are computed, and what a `BitField` reads by.
pub fn part(w: u64, h: u64, l: u64) -> u64
    requires { (l ≤ h) × (h < 64) × (h < l + 63) }
    ensures { result ≡ part h l w }
{
    (w >> l) % power(h + 1 - l)
}

// The word w with v in its bits h down to l. What is above them is reached in two steps, since 2^64 is no word.
pub fn put(w: u64, h: u64, l: u64, v: u64) -> u64
    requires { (l ≤ h) × (h < 64) × (h < l + 63) }
    ensures { result ≡ put h l v w }
{
    let top = power(h);
    w / top / 2 * 2 * top + (v % power(h + 1 - l) * power(l) + w % power(l))
}

// Bits of a word, from a highest down to a lowest, and fewer than 64.
#[derive(Clone, Copy)]
pub struct BitField {
    pub high: u64,
    pub low: u64,
    pub ghost ordered: { low ≤ high },
    pub ghost in_word: { high < 64 },
    pub ghost narrower: { high < low + 63 },
}

impl BitField {
    // The number in these bits of w.
    pub fn of(self, w: u64) -> u64
        ensures { result ≡ part self.high self.low w }
    {
        part(w, self.high, self.low)
    }

    // The word w with v in these bits.
    pub fn put(self, w: u64, v: u64) -> u64
        ensures { result ≡ put self.high self.low v w }
    {
        put(w, self.high, self.low, v)
    }

    // Whether v is no wider than these bits.
    pub fn fits(self, v: u64) -> bool
        ensures { result ≡ nat_lt v (2 ^ (self.high + 1 - self.low)) }
    {
        v < power(self.high + 1 - self.low)
    }
}

// Whether the n numbers from a on and the k from b on share one, by the distance of a and b: an end may be 2^64.
pub fn overlap(a: u64, n: u64, b: u64, k: u64) -> bool
    requires { (0 < n) × (0 < k) }
    ensures { result ≡ overlap a n b k }
{
    if a < b {
        return b - a < n;
    }
    a - b < k
}

// The word of the eight bytes from `at` on. Eight reads: box/volatile.py could not tell the copy of `copy_from_slice` from one to
// lent memory.
pub fn word_at(bytes: &[u8], at: usize) -> u64
    requires { at + 8 ≤ length bytes.now }
    ensures { result ≡ word_at bytes.now at }
{
    u64::from_le_bytes([
        bytes[at],
        bytes[at + 1],
        bytes[at + 2],
        bytes[at + 3],
        bytes[at + 4],
        bytes[at + 5],
        bytes[at + 6],
        bytes[at + 7],
    ])
}

// Stores a word as the eight bytes from `at` on. One store a byte, and no copy of all eight: .ci/writes.py and box/volatile.py
// count each store to lent memory (docs/DECISIONS.md, a slot's bytes are stored one by one).
pub fn store_at(bytes: &mut [u8], at: usize, w: u64)
    requires { at + 8 ≤ length bytes.old }
    ensures { bytes.new ≡ with_word bytes.old at w }
{
    let word = w.to_le_bytes();
    bytes[at] = word[0];
    bytes[at + 1] = word[1];
    bytes[at + 2] = word[2];
    bytes[at + 3] = word[3];
    bytes[at + 4] = word[4];
    bytes[at + 5] = word[5];
    bytes[at + 6] = word[6];
    bytes[at + 7] = word[7];
}

// The lowest number from `from` on, and below `to`, that passes. The clause is for any p that says what the test answers.
pub fn lowest_in<F: Fn(usize) -> bool>(from: usize, to: usize, passes: F) -> Option<usize>
    requires { (i : ℕ) → from ≤ i → i < to → F.pre passes i }
    ensures { (p : ℕ → Bool) → ((i : ℕ) (b : Bool) → from ≤ i → i < to → F.post passes i b → b ≡ p i) → result ≡ lowest p (to - from) from }
{
    for i in from..to {
        if passes(i) {
            return Some(i);
        }
    }
    None
}

// The same, where only the numbers are asked that `next` finds, each the lowest from a number on that may pass: q lets through
// whatever passes, and of what it lets through the test says whether it does.
pub fn lowest_among<N: Fn(usize) -> Option<usize>, F: Fn(usize) -> bool>(
    from: usize,
    to: usize,
    next: N,
    passes: F,
) -> Option<usize>
    requires next { (i : ℕ) → from ≤ i → i < to → N.pre next i }
    requires within { (i k : ℕ) → from ≤ i → i < to → N.post next i (Some k) → (i ≤ k) × (k < to) }
    requires passes { (i : ℕ) → from ≤ i → i < to → F.pre passes i }
    ensures { (p q : ℕ → Bool) → ((i : ℕ) (b : Bool) → from ≤ i → i < to → q i ≡ true → F.post passes i b → b ≡ p i) → ((i : ℕ) (r : Option ℕ) → from ≤ i → i < to → N.post next i r → r ≡ lowest q (to - i) i) → ((i : ℕ) → i < to → p i ≡ true → q i ≡ true) → result ≡ lowest p (to - from) from }
{
    let mut i = from;
    while i < to {
        let k = next(i)?;
        if passes(k) {
            return Some(k);
        }
        i = k + 1;
    }
    None
}
