// Whether two rows could answer the same lookup, so that a fill can refuse a second one.
#![tactic(auto)]

ghost use Rattle.std.specs.Prelude.{◌≡◌, ◌+◌, ◌*◌, ◌≤◌, length};
ghost use Rattle.doubles.specs.Doubles.{same_context, shares_address, shares_stage, shares_asid, shares, collides, collides_at, screen_of, doubled};

use rows::{Kind, Row};
use screens::{Screen, answering, under};

#[tactic(auto, unfolding(rows::specs::Rows::parts_of))]
fn same_context(a: Row, b: Row) -> bool
    ensures { result ≡ same_context a b }
{
    let p = rows::parts_of(a);
    let q = rows::parts_of(b);
    (p.stream == q.stream) & (p.substream == q.substream)
}

fn shares_address(a: Row, b: Row) -> bool
    ensures { result ≡ shares_address a b }
{
    words::overlap(
        a.w2,
        words::power(rows::span_of(a)),
        b.w2,
        words::power(rows::span_of(b)),
    )
}

#[tactic(auto, unfolding(rows::specs::Rows::parts_of))]
fn shares_stage(a: Row, b: Row) -> bool
    ensures { result ≡ shares_stage a b }
{
    (rows::parts_of(a).vmid == rows::parts_of(b).vmid) & shares_address(a, b)
}

#[tactic(auto, unfolding(rows::specs::Rows::parts_of))]
fn shares_asid(a: Row, b: Row) -> bool
    ensures { result ≡ shares_asid a b }
{
    let p = rows::parts_of(a);
    let q = rows::parts_of(b);
    (p.asid == q.asid) | p.global | q.global
}

#[tactic(auto, unfolding(crate::specs::Doubles::shares))]
fn shares(a: Row, b: Row) -> bool
    ensures { result ≡ shares a b }
{
    match rows::kind_of(a) {
        Kind::Ste => rows::stream_of(a) == rows::stream_of(b),
        Kind::Cd => same_context(a, b),
        Kind::Stage1 => shares_stage(a, b) & shares_asid(a, b),
        Kind::Stage2 => shares_stage(a, b),
    }
}

// An empty row is not last-level, so it collides with none, and neither does a marked one.
#[tactic(auto, using(rows::proofs::Numbers::same_kind), unfolding(crate::specs::Doubles::collides))]
pub fn collides(a: Row, b: Row) -> bool
    ensures { result ≡ collides a b }
{
    rows::may_answer(a)
        & rows::may_answer(b)
        & (rows::kind_of(a) == rows::kind_of(b))
        & shares(a, b)
}

fn collides_at(kept: &[u64], words: Row, i: usize) -> bool
    requires { 4 * i + 5 ≤ length kept.now }
    ensures { result ≡ collides_at kept.now words i }
{
    collides(words, image::row_at(kept, i))
}

// What a row must be like to collide with words that may answer. A last byte past the top is taken around it.
#[tactic(auto, unfolding(crate::specs::Doubles::screen_of))]
fn screen_of(words: Row) -> Screen
    ensures { result ≡ screen_of words }
{
    let stream = rows::stream_of(words);
    match rows::kind_of(words) {
        Kind::Ste => answering::of_stream(answering::STE, stream),
        Kind::Cd => answering::of_stream(answering::CD, stream),
        Kind::Stage1 | Kind::Stage2 => {
            let more = words::power(rows::span_of(words)) - 1;
            Screen::Reaching {
                word0: under(answering::KIND_VMID, words.w0 & answering::KIND_VMID),
                last: std::num::wrapping_add_u64(words.w2, more),
                more,
            }
        }
    }
}

// Whether the words collide with one of the first n rows.
pub fn doubled(kept: &[u64], n: usize, words: Row) -> bool
    requires { 4 * n + 1 ≤ length kept.now }
    ensures { result ≡ doubled kept.now n words }
{
    if !rows::may_answer(words) {
        return false;
    }
    let s = screen_of(words);
    screens::find(kept, s, 0, n, |i| collides_at(kept, words, i)).is_some()
}
