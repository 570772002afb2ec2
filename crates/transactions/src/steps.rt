// Document 01, A transaction: its five steps.
ghost use Rattle.std.specs.Prelude.{◌≡◌, Some};
ghost use Rattle.transactions.specs.Steps.{Movable, Ready, Formed, Typed, uses_stage1, uses_stage2, moved, overridden, stage1, stage2, onward, output, translation};
ghost use Rattle.lookups.specs.Lookups.{look};
ghost use Rattle.lookups.specs.declared.Wanted.TheVariants.{Ste};

use crate::{Access, Miss, Outcome, Output, Transaction};
use lookups::Wanted;
use rows::Row;

// Config by its number, as the definition has it: each question is one line. An enum would have to read the ill-formed 1 to 3 as one of
// its cases, and takes a type and a function more to say the same.
fn uses_stage1(config: u64) -> bool
    ensures { result ≡ uses_stage1 config }
{
    (config == 5) | (config == 7)
}

fn uses_stage2(config: u64) -> bool
    ensures { result ≡ uses_stage2 config }
{
    (config == 6) | (config == 7)
}

// Where a row moves an address that it covers.
fn moved(row: Row, address: u64) -> u64
    requires { Movable row address }
    ensures { result ≡ moved row address }
{
    row.w3 + (address - row.w2)
}

fn overridden(ste: Row, t: Transaction) -> Access
    ensures { result ≡ overridden ste t }
{
    Access {
        address: t.address,
        attributes: overrides::overridden(rows::overrides_of(ste), t.attributes),
    }
}

fn stage1(kept: &[u64], t: Transaction, ste: Row, a: Access) -> Result<Access, Miss>
    requires { Ready kept.now }
    ensures { result ≡ stage1 kept.now t ste a }
{
    let p = rows::parts_of(ste);
    if !uses_stage1(p.config) {
        return Ok(a);
    }
    let Some(cd) = lookups::look(
        kept,
        Wanted::Cd {
            stream: t.stream,
            substream: t.substream,
        },
    ) else {
        return Err(Miss::Cd);
    };
    let c = rows::parts_of(cd);
    let Some(row) = lookups::look(
        kept,
        Wanted::Stage1 {
            vmid: p.vmid,
            asid: c.asid,
            address: a.address,
        },
    ) else {
        return Err(Miss::Stage1);
    };
    Ok(Access {
        address: moved(row, a.address),
        attributes: rows::attributes_of(row),
    })
}

fn stage2(kept: &[u64], ste: Row, a: Access) -> Result<Access, Miss>
    requires { Ready kept.now × Typed a }
    ensures { result ≡ stage2 kept.now ste a }
{
    let p = rows::parts_of(ste);
    if !uses_stage2(p.config) {
        return Ok(a);
    }
    let Some(row) = lookups::look(
        kept,
        Wanted::Stage2 {
            vmid: p.vmid,
            address: a.address,
        },
    ) else {
        return Err(Miss::Stage2);
    };
    let b = rows::attributes_of(row);
    Ok(Access {
        address: moved(row, a.address),
        attributes: combining::combined(a.attributes, b.memattr, b.sh),
    })
}

// Steps 2 to 4 on the STE row of the stream: the first row that is not there ends them.
fn staged(kept: &[u64], t: Transaction, ste: Row) -> Result<Access, Miss>
    requires { Ready kept.now × Formed t × (look kept.now (Ste t.stream) ≡ Some ste) }
    ensures { result ≡ onward (stage1 kept.now t ste (overridden ste t)) (stage2 kept.now ste) }
{
    let a = stage1(kept, t, ste, overridden(ste, t))?;
    stage2(kept, ste, a)
}

fn output(ste: Row, t: Transaction, a: Access) -> Output
    ensures { result ≡ output ste t a }
{
    let p = rows::parts_of(ste);
    Output {
        address: a.address,
        attributes: attributes::settled(a.attributes),
        instruction: overrides::instruction(p.instcfg, t.write, t.instruction),
        privileged: overrides::privileged(p.privcfg, t.privileged),
    }
}

// The five steps in their order, on an accepted image.
pub fn translated(kept: &[u64], t: Transaction) -> Outcome
    requires { Ready kept.now × Formed t }
    ensures { result ≡ translation kept.now t }
{
    let Some(ste) = lookups::look(kept, Wanted::Ste { stream: t.stream }) else {
        return Outcome::Missed(Miss::Ste);
    };
    let p = rows::parts_of(ste);
    if p.config == 0 {
        return Outcome::Abort;
    }
    match staged(kept, t, ste) {
        Ok(a) => Outcome::Translated(output(ste, t, a)),
        Err(miss) => Outcome::Missed(miss),
    }
}
