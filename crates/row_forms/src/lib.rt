// Document 01, The kept memory, with document 02, T-04 and T-05: which rows are well formed.
#![tactic(auto)]

ghost use Rattle.std.specs.Prelude.{◌≡◌, true, false, ◌&&◌, ◌<◌, eqb, leb};
ghost use Rattle.std.specs.Int.Bits.{bit_and};
ghost use Rattle.attributes.specs.Formats as attributes;
ghost use Rattle.rows.specs.Rows.{kind_number, is_last, span, attributes_of};
ghost use Rattle.row_forms.specs.WellFormed.{only_named, known_config, ste_good, placed, in_half, begins, mark_good, good, well_formed};

use rows::{
    Kind, Mark, Row, attributes_of, config_of, new_mem_attr_of, places, span_of, stream_of,
};

// The bits that may be set in a row's four words, by its kind, not last-level and last-level. Each stands as a constant of its own:
// a table that is read at a place is written to the stack first.
const STE_BLOCK: Row = Row {
    w0: 0x0000_0000_0000_07ef,
    w1: 0x0000_0000_ffff_ffff,
    w2: 0,
    w3: 0,
};

const CD_TABLE: Row = Row {
    w0: 0x0000_0000_0000_000f,
    w1: 0x0000_0000_ffff_ffff,
    w2: 0,
    w3: 0,
};

const STAGE1_TABLE: Row = Row {
    w0: 0x0000_ffff_ffff_1fff,
    w1: 0,
    w2: 0xffff_ffff_ffff_ffff,
    w3: 0,
};

const STAGE2_TABLE: Row = Row {
    w0: 0x0000_0000_ffff_07ef,
    w1: 0,
    w2: 0xffff_ffff_ffff_ffff,
    w3: 0,
};

const STE: Row = Row {
    w0: 0x7fff_0000_ffff_000f,
    w1: 0x0070_0000_ffff_ffff,
    w2: 0,
    w3: 0,
};

const CD: Row = Row {
    w0: 0x0000_ffff_0000_000f,
    w1: 0x000f_ffff_ffff_ffff,
    w2: 0,
    w3: 0,
};

const STAGE1: Row = Row {
    w0: 0x0fff_ffff_ffff_1fff,
    w1: 0,
    w2: 0xffff_ffff_ffff_ffff,
    w3: 0xffff_ffff_ffff_ffff,
};

const STAGE2: Row = Row {
    w0: 0x003f_0000_ffff_07ef,
    w1: 0,
    w2: 0xffff_ffff_ffff_ffff,
    w3: 0xffff_ffff_ffff_ffff,
};

// Output addresses, and input addresses at stage 2, have so many bits; at stage 1 those above say which half it is.
const ADDRESS_BITS: u64 = 52;

// Whether each word of a row has only the bits of its mask.
fn inside(row: Row, m: Row) -> bool
    ensures { result ≡ (eqb (bit_and row.w0 m.w0) row.w0 && eqb (bit_and row.w1 m.w1) row.w1 && eqb (bit_and row.w2 m.w2) row.w2 && eqb (bit_and row.w3 m.w3) row.w3) }
{
    (row.w0 & m.w0 == row.w0)
        & (row.w1 & m.w1 == row.w1)
        & (row.w2 & m.w2 == row.w2)
        & (row.w3 & m.w3 == row.w3)
}

// 1 to 3 are ill formed: a range of numbers, which an enum of the others would say no plainer.
fn known_config(c: u64) -> bool
    ensures { result ≡ known_config c }
{
    (c == 0) | (4 <= c)
}

#[tactic(auto, unfolding(crate::specs::WellFormed::ste_good))]
fn ste_last_good(row: Row) -> bool
    requires { is_last row ≡ true }
    ensures { result ≡ ste_good row }
{
    known_config(config_of(row)) & attributes::mem_attr_formed(new_mem_attr_of(row))
}

#[tactic(auto, unfolding(crate::specs::WellFormed::ste_good))]
fn ste_block_good(row: Row) -> bool
    requires { is_last row ≡ false }
    ensures { result ≡ ste_good row }
{
    let span = span_of(row);
    ((span == 6) | (span == 8) | (span == 10)) & (stream_of(row) % words::power(span) == 0)
}

#[tactic(auto, unfolding(crate::specs::WellFormed::placed))]
fn placed(n: u64, a: u64) -> bool
    requires { n < 64 }
    ensures { result ≡ placed n a }
{
    (a < words::power(ADDRESS_BITS)) & (a % words::power(n) == 0)
}

// Either half of the addresses: the bits above all 0, or all 1.
#[tactic(auto, unfolding(crate::specs::WellFormed::in_half))]
fn in_half(a: u64) -> bool
    ensures { result ≡ in_half a }
{
    let above = words::part(a, 63, ADDRESS_BITS);
    (above == 0) | (above == 0xfff)
}

#[tactic(auto, using(rows::proofs::Numbers::same_kind), unfolding(crate::specs::WellFormed::begins))]
fn begins(kind: Kind, n: u64, a: u64) -> bool
    requires { n < 64 }
    ensures { result ≡ begins (kind_number kind) n a }
{
    if kind == Kind::Stage1 {
        return in_half(a) & (a % words::power(n) == 0);
    }
    placed(n, a)
}

// The hypervisor's own rows: one mark, VMID 0, and an ASID or global only for EL2-E2H.
#[tactic(auto, using(rows::proofs::Numbers::mark_is), unfolding(crate::specs::WellFormed::mark_good, rows::specs::Rows::parts_of))]
fn mark_good(row: Row) -> bool
    ensures { result ≡ mark_good row }
{
    let p = rows::parts_of(row);
    match p.mark {
        Mark::Unmarked => true,
        Mark::El2 => (p.vmid == 0) & (p.asid == 0) & !p.global,
        Mark::El2E2h => p.vmid == 0,
        Mark::Both => false,
    }
}

// A stage row: its span and its input address; and in a last-level one the output address and the attributes.
fn input_good(row: Row, kind: Kind) -> bool
    ensures { result ≡ (leb 12 (span row) && leb (span row) 48 && begins (kind_number kind) (span row) row.w2) }
{
    let span = span_of(row);
    (12 <= span) & (span <= 48) & begins(kind, span, row.w2)
}

fn output_good(row: Row) -> bool
    ensures { result ≡ (placed (span row) row.w3 && attributes.well_formed (attributes_of row)) }
{
    let span = span_of(row);
    placed(span, row.w3) & attributes::well_formed(attributes_of(row))
}

// The masks and the rules of each kind, not last-level and last-level. Stage 2 names no bits for marks, so that there are none to
// look at.
fn shaped(row: Row) -> bool
    ensures { result ≡ (only_named row && good row) }
{
    match (rows::kind_of(row), rows::is_last(row)) {
        (Kind::Ste, false) => inside(row, STE_BLOCK) & ste_block_good(row),
        (Kind::Cd, false) => inside(row, CD_TABLE),
        (Kind::Stage1, false) => {
            inside(row, STAGE1_TABLE) & (input_good(row, Kind::Stage1) & mark_good(row))
        }
        (Kind::Stage2, false) => inside(row, STAGE2_TABLE) & input_good(row, Kind::Stage2),
        (Kind::Ste, true) => inside(row, STE) & ste_last_good(row),
        (Kind::Cd, true) => inside(row, CD),
        (Kind::Stage1, true) => {
            inside(row, STAGE1)
                & (input_good(row, Kind::Stage1) & output_good(row) & mark_good(row))
        }
        (Kind::Stage2, true) => {
            inside(row, STAGE2) & (input_good(row, Kind::Stage2) & output_good(row))
        }
    }
}

#[tactic(auto, unfolding(crate::specs::WellFormed::well_formed_by, words::specs::Parts::part))]
pub fn well_formed(row: Row) -> bool
    ensures { result ≡ well_formed row }
{
    if row.w0 == 0 {
        return true;
    }
    if places::VALID.of(row.w0) == 0 {
        return false;
    }
    shaped(row)
}
