// Attributes, and what a stream overrides them by (document 01, The kept memory, and A transaction, step 2). Their values are
// numbers, as in the rows: what each is called is here alone.
use attributes::{Attributes, Half, Overrides};
use rows::Parts;
use std::io::Write;
use std::{fmt, io};

// The MemAttrs below are Device types.
const NORMAL: u64 = 4;

// The bits of ALLOCCFG, and of half of the hints.
const ALLOC: u64 = 8;

const RA: u64 = 1;

const WA: u64 = 2;

const TR: u64 = 4;

#[derive(Clone, Copy)]
struct MemAttr(u64);

impl fmt::Display for MemAttr {
    fn fmt<W: fmt::Write>(&self, f: &mut fmt::Formatter<W>) -> fmt::Result {
        match self.0 {
            0 => f.write_str("Device-nGnRnE"),
            1 => f.write_str("Device-nGnRE"),
            2 => f.write_str("Device-nGRE"),
            3 => f.write_str("Device-GRE"),
            m => write!(
                f,
                "Normal, outer {}, inner {}",
                cacheability(m / NORMAL % 4),
                cacheability(m % NORMAL)
            ),
        }
    }
}

fn cacheability(half: u64) -> &'static str {
    match half {
        0 => "ill formed",
        1 => "NC",
        2 => "WT",
        _ => "WB",
    }
}

#[derive(Clone, Copy)]
struct Sh(u64);

impl fmt::Display for Sh {
    fn fmt<W: fmt::Write>(&self, f: &mut fmt::Formatter<W>) -> fmt::Result {
        f.write_str(match self.0 {
            0 => "NSH",
            1 => "SH 1, ill formed",
            2 => "OSH",
            _ => "ISH",
        })
    }
}

// The hints of a half.
#[derive(Clone, Copy)]
struct Hints(u64);

impl fmt::Display for Hints {
    fn fmt<W: fmt::Write>(&self, f: &mut fmt::Formatter<W>) -> fmt::Result {
        if self.0 == 0 {
            return f.write_str(" none");
        }
        for (bit, name) in [(RA, " RA"), (WA, " WA"), (TR, " TR")] {
            if self.0 & bit != 0 {
                f.write_str(name)?;
            }
        }
        Ok(())
    }
}

// MemAttr and SH.
pub fn attributes_told(out: &mut impl Write, a: Attributes) -> io::Result<()> {
    write!(out, "    {}, {}", MemAttr(a.memattr), Sh(a.sh))
}

pub fn hints_told(out: &mut impl Write, a: Attributes) -> io::Result<()> {
    write!(
        out,
        ", inner hints{}, outer hints{}",
        Hints(Half::Inner.hints(a.hints)),
        Hints(Half::Outer.hints(a.hints))
    )
}

// What a last-level STE row makes of an access.
pub fn overrides_told(out: &mut impl Write, o: Overrides, p: Parts) -> io::Result<()> {
    write!(out, "    memory type (MTCFG {}) ", o.mtcfg)?;
    if o.mtcfg == 1 {
        write!(out, "{}", MemAttr(o.memattr))?;
    } else {
        write!(out, "as it comes")?;
    }
    let shareability = match o.shcfg {
        0 => "NSH",
        1 => "as it comes",
        2 => "OSH",
        _ => "ISH",
    };
    write!(out, "; shareability (SHCFG {}) {shareability}", o.shcfg)?;
    hints_made_told(&mut *out, o.alloccfg)?;
    let reads = match p.instcfg {
        2 => "are data",
        3 => "are instructions",
        _ => "as they come",
    };
    write!(out, "    reads (INSTCFG {}) {reads}", p.instcfg)?;
    let privilege = match p.privcfg {
        2 => "unprivileged",
        3 => "privileged",
        _ => "as it comes",
    };
    writeln!(out, "; privilege (PRIVCFG {}) {privilege}", p.privcfg)
}

fn hints_made_told(out: &mut impl Write, alloccfg: u64) -> io::Result<()> {
    write!(out, "; hints (ALLOCCFG 0x{alloccfg:x}) ")?;
    if alloccfg & ALLOC == 0 {
        return writeln!(out, "as they come");
    }
    writeln!(
        out,
        "RA {}, WA {}, TR {} in cacheable halves",
        alloccfg / TR % 2,
        alloccfg / WA % 2,
        alloccfg / RA % 2
    )
}
