// The names of what a board can have.
use std::fmt;
use types::{McuLine, McuStorage, SdrrMcuPort, SdrrRomType};

#[derive(Clone, Copy)]
pub struct Line(pub McuLine);

impl fmt::Display for Line {
    fn fmt<W: fmt::Write>(&self, f: &mut fmt::Formatter<W>) -> fmt::Result {
        f.write_str(match self.0 {
            McuLine::F401DE => "STM32F401DE",
            McuLine::F405 => "STM32F405",
            McuLine::F411 => "STM32F411",
            McuLine::F446 => "STM32F446",
            McuLine::F401BC => "STM32F401BC",
            McuLine::Rp2350 => "RP2350",
        })
    }
}

// A storage by its code.
#[derive(Clone, Copy)]
pub struct Storage(pub McuStorage);

impl fmt::Display for Storage {
    fn fmt<W: fmt::Write>(&self, f: &mut fmt::Formatter<W>) -> fmt::Result {
        f.write_str(match self.0 {
            McuStorage::Storage8 => "8",
            McuStorage::StorageB => "B",
            McuStorage::StorageC => "C",
            McuStorage::StorageD => "D",
            McuStorage::StorageE => "E",
            McuStorage::StorageF => "F",
            McuStorage::StorageG => "G",
            McuStorage::Storage2MB => "2MB",
        })
    }
}

// Its KiB.
pub fn kib(storage: McuStorage) -> u32 {
    match storage {
        McuStorage::Storage8 => 64,
        McuStorage::StorageB => 128,
        McuStorage::StorageC => 256,
        McuStorage::StorageD => 384,
        McuStorage::StorageE => 512,
        McuStorage::StorageF => 768,
        McuStorage::StorageG => 1024,
        McuStorage::Storage2MB => 2048,
    }
}

#[derive(Clone, Copy)]
pub struct Port(pub SdrrMcuPort);

impl fmt::Display for Port {
    fn fmt<W: fmt::Write>(&self, f: &mut fmt::Formatter<W>) -> fmt::Result {
        f.write_str(match self.0 {
            SdrrMcuPort::None => "none",
            SdrrMcuPort::PortA => "A",
            SdrrMcuPort::PortB => "B",
            SdrrMcuPort::PortC => "C",
            SdrrMcuPort::PortD => "D",
            SdrrMcuPort::Port0 => "0",
        })
    }
}

#[derive(Clone, Copy)]
pub struct RomType(pub SdrrRomType);

impl fmt::Display for RomType {
    fn fmt<W: fmt::Write>(&self, f: &mut fmt::Formatter<W>) -> fmt::Result {
        f.write_str(rom_type(self.0))
    }
}

fn rom_type(rom_type: SdrrRomType) -> &'static str {
    match rom_type {
        SdrrRomType::Rom2316 => "2316",
        SdrrRomType::Rom2332 => "2332",
        SdrrRomType::Rom2364 => "2364",
        SdrrRomType::Rom23128 => "23128",
        SdrrRomType::Rom23256 => "23256",
        SdrrRomType::Rom23512 => "23512",
        SdrrRomType::Rom2704 => "2704",
        SdrrRomType::Rom2708 => "2708",
        SdrrRomType::Rom2716 => "2716",
        SdrrRomType::Rom2732 => "2732",
        SdrrRomType::Rom2764 => "2764",
        SdrrRomType::Rom27128 => "27128",
        SdrrRomType::Rom27256 => "27256",
        SdrrRomType::Rom27512 => "27512",
        SdrrRomType::Rom231024 => "231024",
        SdrrRomType::Rom27C010 => "27C010",
        SdrrRomType::Rom27C020 => "27C020",
        SdrrRomType::Rom27C040 => "27C040",
        SdrrRomType::Rom27C080 => "27C080",
        SdrrRomType::Rom27C400 => "27C400",
        SdrrRomType::Ram6116 => "6116 (RAM)",
        SdrrRomType::Rom27C301 => "27C301",
        SdrrRomType::SystemPlugin => "System Plugin",
        SdrrRomType::UserPlugin => "User Plugin",
        SdrrRomType::PioPlugin => "PIO Plugin",
        SdrrRomType::RomSst39sf040 => "SST39SF040",
        SdrrRomType::Rom28C16 => "28C16",
        SdrrRomType::Rom28C64 => "28C64",
        SdrrRomType::Rom28C256 => "28C256",
        SdrrRomType::Rom28C512 => "28C512",
        SdrrRomType::Rom23QL512 => "23QL512",
        SdrrRomType::Rom23QL384 => "23QL384",
        SdrrRomType::Rom23C1001 => "23C1001",
        SdrrRomType::Rom27C200 => "27C200",
    }
}

// A chip-select state, for a person and for a script. By its number: rows, which C is lent too, hold no kinds.
pub fn select(state: u32) -> &'static str {
    match state {
        0 => "active low",
        1 => "active high",
        2 => "not used",
        _ => "",
    }
}

pub fn select_word(state: u32) -> &'static str {
    match state {
        0 => "active_low",
        1 => "active_high",
        2 => "not_used",
        _ => "",
    }
}

// How a set is served, by its number in its row.
pub fn serving(number: u32) -> &'static str {
    match number {
        0 => "A (CS checked twice)",
        1 => "B (address on CS)",
        2 => "C (address on any CS)",
        _ => "",
    }
}
