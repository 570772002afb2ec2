// Document 01, The kept memory, with document 02, T-05: a row's parts.
ghost use Rattle.std.specs.Prelude.{◌≡◌, ◌<◌};
ghost use Rattle.rows.specs.Rows.{kind_number, mark_number, kind, is_last, span, mark, may_answer, stream, config, new_mem_attr, parts_of, overrides_of, attributes_of, covers};

use crate::{Kind, Mark, Parts, Row, places};
use attributes::{Attributes, Overrides};

// Six bits, so that a power of two of them is within the machine's reach.
#[tactic(auto, unfolding(words::specs::Parts::part))]
pub fn span_of(row: Row) -> u64
    ensures { (result ≡ span row) × (result < 64) }
{
    places::SPAN.of(row.w0)
}

#[tactic(auto, unfolding(words::specs::Parts::part))]
pub fn kind_of(row: Row) -> Kind
    ensures { kind_number result ≡ kind row }
{
    match places::KIND.of(row.w0) {
        0 => Kind::Ste,
        1 => Kind::Cd,
        2 => Kind::Stage1,
        _ => Kind::Stage2,
    }
}

pub fn is_last(row: Row) -> bool
    ensures { result ≡ is_last row }
{
    places::LAST.of(row.w0) == 1
}

// Which of the hypervisor's own rows it is, or none.
#[tactic(auto, unfolding(words::specs::Parts::part))]
pub fn mark_of(row: Row) -> Mark
    ensures { mark_number result ≡ mark row }
{
    match places::MARK.of(row.w0) {
        0 => Mark::Unmarked,
        1 => Mark::El2,
        2 => Mark::El2E2h,
        _ => Mark::Both,
    }
}

#[tactic(auto, using(crate::proofs::Numbers::same_mark))]
pub fn may_answer(row: Row) -> bool
    ensures { result ≡ may_answer row }
{
    is_last(row) & (mark_of(row) == Mark::Unmarked)
}

pub fn stream_of(row: Row) -> u64
    ensures { result ≡ stream row }
{
    places::STREAM.of(row.w1)
}

pub fn config_of(row: Row) -> u64
    ensures { result ≡ config row }
{
    places::CONFIG.of(row.w1)
}

// The MemAttr that MTCFG may take.
pub fn new_mem_attr_of(row: Row) -> u64
    ensures { result ≡ new_mem_attr row }
{
    places::NEW_MEMATTR.of(row.w0)
}

#[tactic(auto, using(crate::proofs::Numbers::kind_by_number, crate::proofs::Numbers::mark_by_number), unfolding(crate::specs::Rows::parts_of))]
pub fn parts_of(row: Row) -> Parts
    ensures { result ≡ parts_of row }
{
    Parts {
        kind: kind_of(row),
        last: is_last(row),
        global: places::GLOBAL.of(row.w0) == 1,
        span: span_of(row),
        mark: mark_of(row),
        vmid: places::VMID.of(row.w0),
        asid: places::ASID.of(row.w0),
        stream: stream_of(row),
        substream: places::SUBSTREAM.of(row.w1),
        config: config_of(row),
        instcfg: places::INSTCFG.of(row.w0),
        privcfg: places::PRIVCFG.of(row.w0),
    }
}

#[tactic(auto, unfolding(crate::specs::Rows::overrides_of))]
pub fn overrides_of(row: Row) -> Overrides
    ensures { result ≡ overrides_of row }
{
    Overrides {
        mtcfg: places::MTCFG.of(row.w0),
        memattr: new_mem_attr_of(row),
        shcfg: places::SHCFG.of(row.w0),
        alloccfg: places::ALLOCCFG.of(row.w0),
    }
}

#[tactic(auto, unfolding(crate::specs::Rows::attributes_of))]
pub fn attributes_of(row: Row) -> Attributes
    ensures { result ≡ attributes_of row }
{
    Attributes {
        memattr: places::MEMATTR.of(row.w0),
        sh: places::SH.of(row.w0),
        hints: places::HINTS.of(row.w0),
    }
}

#[tactic(auto, using(crate::proofs::Covering::inside, crate::proofs::Covering::outside))]
pub fn covers(row: Row, address: u64) -> bool
    ensures { result ≡ covers row address }
{
    let base = row.w2;
    if address < base {
        return false;
    }
    address - base < words::power(span_of(row))
}
