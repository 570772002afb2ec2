// The state of an image: its indexes, its error, whether it is enabled, its used rows. From words, and from their bytes.
#![tactic(auto)]

ghost use Rattle.std.specs.Prelude.{◌≡◌, ◌*◌, ◌≤◌, length, take};
ghost use Rattle.image_state.specs.States.{state_of, words_in, state_in};

use image::Refusal;

#[derive(Clone, Copy)]
pub struct State {
    pub rd: u64,
    pub wr: u64,
    pub err: u64,
    pub active: bool,
    pub enabled: bool,
    pub used: u64,
}

// The words of the largest image.
const WORDS: usize = 1 + 4 * image::MAX_ROWS;

// The state of an accepted image.
pub fn state_of(kept: &[u64]) -> Result<State, Refusal>
    ensures { result ≡ state_of kept.now }
{
    let n = image::check(kept)?;
    let w = kept[0];
    let c = control::fields_of(w);
    Ok(State {
        rd: c.rd,
        wr: c.wr,
        err: c.err,
        active: control::active(w),
        enabled: !(c.cmdqen == 0),
        used: image::used_rows(kept, n) as u64,
    })
}

// Puts the first n words of the bytes into `out`.
fn gather(bytes: &[u8], out: &mut [u64], n: usize)
    requires { (8 * n ≤ length bytes.now) × (n ≤ length out.old) }
    ensures { take n out.new ≡ words_in bytes.now n }
{
    for i in 0..n {
        out[i] = words::word_at(bytes, 8 * i);
    }
}

// The state of the image whose bytes these are. A broken last word, or more bytes than any image has, is a bad length.
pub fn state_in(bytes: &[u8]) -> Result<State, Refusal>
    ensures { result ≡ state_in bytes.now }
{
    let n = bytes.len() / 8;
    if bytes.len() != 8 * n {
        return Err(Refusal::BadLength);
    }
    if WORDS < n {
        return Err(Refusal::BadLength);
    }
    let mut kept = [0u64; WORDS];
    gather(bytes, &mut kept, n);
    state_of(&kept[..n])
}
