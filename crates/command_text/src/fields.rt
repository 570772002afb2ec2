// The fields of a legal command.
use crate::names::RegionSize;
use commands::{Command, Features, Target};
use std::fmt;

// The fields that a command has, each behind a comma, and whether they keep it from removing anything.
#[derive(Clone, Copy)]
pub struct Fields {
    pub command: Command,
    pub features: Features,
}

impl fmt::Display for Fields {
    fn fmt<W: fmt::Write>(&self, f: &mut fmt::Formatter<W>) -> fmt::Result {
        named(self.command, f)?;
        if scopes::invalidates(self.command)
            & scopes::idle(self.features, self.command)
            & !region_scopes::is_regional(self.command)
        {
            f.write_str(
                "; it removes nothing, since its VMID or ASID has more bits than the features allow",
            )?;
        }
        Ok(())
    }
}

fn named<W: fmt::Write>(command: Command, f: &mut fmt::Formatter<W>) -> fmt::Result {
    match command {
        Command::PrefetchConfig
        | Command::PrefetchAddr
        | Command::TlbiEl2All
        | Command::TlbiNsnhAll
        | Command::DptiAll => Ok(()),
        Command::CfgiSte(stream, leaf) => write!(f, ", stream 0x{stream:x}{}", Leaf(leaf)),
        Command::CfgiSteRange(stream, range) => write!(f, "{}", Streams { stream, range }),
        Command::CfgiCd(substream, stream, leaf) => write!(
            f,
            ", stream 0x{stream:x}, substream 0x{substream:x}{}",
            Leaf(leaf)
        ),
        Command::CfgiCdAll(stream) => write!(f, ", stream 0x{stream:x}"),
        Command::TlbiNhAll(vmid) | Command::TlbiS12Vmall(vmid) => write!(f, "{}", Vmid(vmid)),
        Command::TlbiNhAsid(vmid, asid) => write!(f, "{}{}", Vmid(vmid), Asid(asid)),
        Command::TlbiNhVa(vmid, asid, target) => {
            write!(f, "{}{}{}", Vmid(vmid), Asid(asid), Aim(target))
        }
        Command::TlbiNhVaa(vmid, target) | Command::TlbiS2Ipa(vmid, target) => {
            write!(f, "{}{}", Vmid(vmid), Aim(target))
        }
        Command::TlbiEl2Asid(asid) => write!(f, "{}", Asid(asid)),
        Command::TlbiEl2Va(asid, target) => write!(f, "{}{}", Asid(asid), Aim(target)),
        Command::TlbiEl2Vaa(target) => write!(f, "{}", Aim(target)),
        Command::Sync(cs) => write!(f, "{}", Signal(cs)),
        Command::DptiPa(page, size, leaf) => write!(f, "{}", Region { page, size, leaf }),
    }
}

#[derive(Clone, Copy)]
struct Leaf(bool);

impl fmt::Display for Leaf {
    fn fmt<W: fmt::Write>(&self, f: &mut fmt::Formatter<W>) -> fmt::Result {
        write!(f, ", Leaf {}", u8::from(self.0))
    }
}

#[derive(Clone, Copy)]
struct Vmid(u64);

impl fmt::Display for Vmid {
    fn fmt<W: fmt::Write>(&self, f: &mut fmt::Formatter<W>) -> fmt::Result {
        write!(f, ", VMID 0x{:x}", self.0)
    }
}

#[derive(Clone, Copy)]
struct Asid(u64);

impl fmt::Display for Asid {
    fn fmt<W: fmt::Write>(&self, f: &mut fmt::Formatter<W>) -> fmt::Result {
        write!(f, ", ASID 0x{:x}", self.0)
    }
}

// The streams of a block, of which the lowest bits are open.
#[derive(Clone, Copy)]
struct Streams {
    stream: u64,
    range: u64,
}

impl fmt::Display for Streams {
    fn fmt<W: fmt::Write>(&self, f: &mut fmt::Formatter<W>) -> fmt::Result {
        let open = scopes::open_bits(self.range);
        let first = self.stream >> open << open;
        let last = first.wrapping_add(words::power(open) - 1);
        write!(
            f,
            ", streams 0x{first:x} to 0x{last:x} (Range {})",
            self.range
        )
    }
}

// What a command by address aims at: a single address, or a range of them, which ends with the 64-bit space at the latest.
#[derive(Clone, Copy)]
struct Aim(Target);

impl fmt::Display for Aim {
    fn fmt<W: fmt::Write>(&self, f: &mut fmt::Formatter<W>) -> fmt::Result {
        let target = self.0;
        let first = scopes::first_of(target);
        if target.tg == 0 {
            write!(f, ", address 0x{first:x}")?;
        } else {
            let last = first.saturating_add(scopes::length_of(target) - 1);
            write!(f, ", addresses 0x{first:x} to 0x{last:x}")?;
            write!(f, "{}", Hints(target))?;
        }
        write!(f, "{}", Leaf(target.leaf))
    }
}

// The granule of a range, its length as it stands, and the hints.
#[derive(Clone, Copy)]
struct Hints(Target);

impl fmt::Display for Hints {
    fn fmt<W: fmt::Write>(&self, f: &mut fmt::Formatter<W>) -> fmt::Result {
        let target = self.0;
        let granule = match target.tg {
            0 => "none",
            1 => "4KB",
            2 => "16KB",
            _ => "64KB",
        };
        let ttl128 = if target.ttl128 { ", TTL128" } else { "" };
        write!(
            f,
            " (TG {granule}, NUM {}, SCALE {}, TTL {}{ttl128})",
            target.num, target.scale, target.ttl
        )
    }
}

// What a CMD_SYNC asks for when it is done.
#[derive(Clone, Copy)]
struct Signal(u64);

impl fmt::Display for Signal {
    fn fmt<W: fmt::Write>(&self, f: &mut fmt::Formatter<W>) -> fmt::Result {
        let cs = self.0;
        let asked = match cs {
            0 => "no signal",
            1 => "an interrupt",
            2 => "an event, which is not signalled here",
            _ => "ill formed",
        };
        write!(f, ", CS {cs} ({asked})")
    }
}

// A region of the device permission table: an address and a size.
#[derive(Clone, Copy)]
struct Region {
    page: u64,
    size: u64,
    leaf: bool,
}

impl fmt::Display for Region {
    fn fmt<W: fmt::Write>(&self, f: &mut fmt::Formatter<W>) -> fmt::Result {
        write!(
            f,
            ", address 0x{:x}, size {}{}",
            self.page << 12,
            RegionSize(self.size),
            Leaf(self.leaf)
        )?;
        if !regions::names_region(self.page, self.size) {
            f.write_str(
                "; it removes nothing, since there is no region of this size at this address",
            )?;
        }
        Ok(())
    }
}
