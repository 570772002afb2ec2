// Names: of codes, as Arm has them, and of sizes.
use std::fmt;

// The code of a command, by its name, or as a number if this unit does not know it.
#[derive(Clone, Copy)]
pub struct Code(pub u64);

impl fmt::Display for Code {
    fn fmt<W: fmt::Write>(&self, f: &mut fmt::Formatter<W>) -> fmt::Result {
        f.write_str(match self.0 {
            0x01 => "CMD_PREFETCH_CONFIG",
            0x02 => "CMD_PREFETCH_ADDR",
            0x03 => "CMD_CFGI_STE",
            0x04 => "CMD_CFGI_STE_RANGE",
            0x05 => "CMD_CFGI_CD",
            0x06 => "CMD_CFGI_CD_ALL",
            0x10 => "CMD_TLBI_NH_ALL",
            0x11 => "CMD_TLBI_NH_ASID",
            0x12 => "CMD_TLBI_NH_VA",
            0x13 => "CMD_TLBI_NH_VAA",
            0x20 => "CMD_TLBI_EL2_ALL",
            0x21 => "CMD_TLBI_EL2_ASID",
            0x22 => "CMD_TLBI_EL2_VA",
            0x23 => "CMD_TLBI_EL2_VAA",
            0x28 => "CMD_TLBI_S12_VMALL",
            0x2A => "CMD_TLBI_S2_IPA",
            0x30 => "CMD_TLBI_NSNH_ALL",
            0x46 => "CMD_SYNC",
            0x70 => "CMD_DPTI_ALL",
            0x73 => "CMD_DPTI_PA",
            unknown => return write!(f, "code 0x{unknown:x}"),
        })
    }
}

// How large a region of the device permission table is, by the code of its size.
#[derive(Clone, Copy)]
pub struct RegionSize(pub u64);

impl fmt::Display for RegionSize {
    fn fmt<W: fmt::Write>(&self, f: &mut fmt::Formatter<W>) -> fmt::Result {
        f.write_str(match self.0 {
            0 => "4KB",
            1 => "16KB",
            2 => "64KB",
            3 => "2MB",
            4 => "32MB",
            5 => "512MB",
            6 => "1GB",
            7 => "16GB",
            8 => "64GB",
            9 => "512GB",
            reserved => return write!(f, "Reserved ({reserved})"),
        })
    }
}
