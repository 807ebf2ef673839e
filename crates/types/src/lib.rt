// The enums of types.rs, in the order of their numbers, the case of a number, and how each is shown.
#![tactic(auto)]

ghost use Rattle.std.specs.Prelude.{◌≡◌, Some};
ghost use Rattle.types.specs.Types.{line_of, storage_of, port_of, rom_type_of};
ghost use Rattle.types.specs.Known.{IsLine, IsStorage, IsRomType};
ghost use Rattle.types.specs.Texts.{line_text, storage_text, port_text, rom_type_text};

use refusal::Refusal;
use std::fmt;

// The microcontroller line: an STM32F4, or the Rp2350.
#[derive(Clone, Copy, Debug, PartialEq, Eq)]
pub enum McuLine {
    F401DE,
    F405,
    F411,
    F446,
    F401BC,
    Rp2350,
}

#[tactic(auto, unfolding(crate::specs::Types::line_of))]
impl TryFrom<u16> for McuLine {
    type Error = Refusal;

    ghost try_from_gives = { IsLine };

    fn try_from(number: u16) -> Result<McuLine, Refusal> {
        Ok(match number {
            0 => McuLine::F401DE,
            1 => McuLine::F405,
            2 => McuLine::F411,
            3 => McuLine::F446,
            4 => McuLine::F401BC,
            5 => McuLine::Rp2350,
            _ => return Err(Refusal::McuLine),
        })
    }
}

impl fmt::Display for McuLine {
    ghost output = { λ it. Some (line_text it) };

    fn fmt<W: fmt::Write>(&self, f: &mut fmt::Formatter<W>) -> fmt::Result {
        f.write_str(match self {
            McuLine::F401DE => "STM32F401DE",
            McuLine::F405 => "STM32F405",
            McuLine::F411 => "STM32F411",
            McuLine::F446 => "STM32F446",
            McuLine::F401BC => "STM32F401BC",
            McuLine::Rp2350 => "RP2350",
        })
    }
}

// The line of a number; of one above 5, which the header does not accept, the first line.
#[tactic(auto, unfolding(crate::specs::Types::line_of))]
pub fn line_of(number: u16) -> McuLine
    ensures { result ≡ line_of number }
{
    McuLine::try_from(number).unwrap_or(McuLine::F401DE)
}

// The size of the flash.
#[derive(Clone, Copy, Debug, PartialEq, Eq)]
pub enum McuStorage {
    Storage8,
    StorageB,
    StorageC,
    StorageD,
    StorageE,
    StorageF,
    StorageG,
    Storage2MB,
}

#[tactic(auto, unfolding(crate::specs::Types::storage_of))]
impl TryFrom<u16> for McuStorage {
    type Error = Refusal;

    ghost try_from_gives = { IsStorage };

    fn try_from(number: u16) -> Result<McuStorage, Refusal> {
        Ok(match number {
            0 => McuStorage::Storage8,
            1 => McuStorage::StorageB,
            2 => McuStorage::StorageC,
            3 => McuStorage::StorageD,
            4 => McuStorage::StorageE,
            5 => McuStorage::StorageF,
            6 => McuStorage::StorageG,
            7 => McuStorage::Storage2MB,
            _ => return Err(Refusal::McuStorage),
        })
    }
}

impl fmt::Display for McuStorage {
    ghost output = { λ it. Some (storage_text it) };

    fn fmt<W: fmt::Write>(&self, f: &mut fmt::Formatter<W>) -> fmt::Result {
        f.write_str(match self {
            McuStorage::Storage8 => "8",
            McuStorage::StorageB => "B",
            McuStorage::StorageC => "C",
            McuStorage::StorageD => "D",
            McuStorage::StorageE => "E",
            McuStorage::StorageF => "F",
            McuStorage::StorageG => "G",
            McuStorage::Storage2MB => "2MB",
        })
    }
}

// The storage of a number; of one above 7, which the header does not accept, the first storage.
#[tactic(auto, unfolding(crate::specs::Types::storage_of))]
pub fn storage_of(number: u16) -> McuStorage
    ensures { result ≡ storage_of number }
{
    McuStorage::try_from(number).unwrap_or(McuStorage::Storage8)
}

// The GPIO port that some pins are on.
#[derive(Clone, Copy, Debug, PartialEq, Eq)]
pub enum SdrrMcuPort {
    None,
    PortA,
    PortB,
    PortC,
    PortD,
    Port0,
}

// The port of a number; None where there is none of that number.
#[tactic(auto, unfolding(crate::specs::Types::port_of))]
impl From<u8> for SdrrMcuPort {
    ghost from_gives = { λ number port. port ≡ port_of number };

    fn from(number: u8) -> SdrrMcuPort {
        match number {
            1 => SdrrMcuPort::PortA,
            2 => SdrrMcuPort::PortB,
            3 => SdrrMcuPort::PortC,
            4 => SdrrMcuPort::PortD,
            5 => SdrrMcuPort::Port0,
            _ => SdrrMcuPort::None,
        }
    }
}

impl fmt::Display for SdrrMcuPort {
    ghost output = { λ it. Some (port_text it) };

    fn fmt<W: fmt::Write>(&self, f: &mut fmt::Formatter<W>) -> fmt::Result {
        f.write_str(match self {
            SdrrMcuPort::None => "None",
            SdrrMcuPort::PortA => "A",
            SdrrMcuPort::PortB => "B",
            SdrrMcuPort::PortC => "C",
            SdrrMcuPort::PortD => "D",
            SdrrMcuPort::Port0 => "0",
        })
    }
}

pub fn port_of(number: u8) -> SdrrMcuPort
    ensures { result ≡ port_of number }
{
    SdrrMcuPort::from(number)
}

// The type of a ROM.
#[derive(Clone, Copy, Debug, PartialEq, Eq)]
pub enum SdrrRomType {
    Rom2316,
    Rom2332,
    Rom2364,
    Rom23128,
    Rom23256,
    Rom23512,
    Rom2704,
    Rom2708,
    Rom2716,
    Rom2732,
    Rom2764,
    Rom27128,
    Rom27256,
    Rom27512,
    Rom231024,
    Rom27C010,
    Rom27C020,
    Rom27C040,
    Rom27C080,
    Rom27C400,
    Ram6116,
    Rom27C301,
    SystemPlugin,
    UserPlugin,
    PioPlugin,
    RomSst39sf040,
    Rom28C16,
    Rom28C64,
    Rom28C256,
    Rom28C512,
    Rom23QL512,
    Rom23QL384,
    Rom23C1001,
    Rom27C200,
}

#[tactic(auto, unfolding(crate::specs::Types::rom_type_of))]
impl TryFrom<u32> for SdrrRomType {
    type Error = Refusal;

    ghost try_from_gives = { IsRomType };

    fn try_from(number: u32) -> Result<SdrrRomType, Refusal> {
        Ok(match number {
            0 => SdrrRomType::Rom2316,
            1 => SdrrRomType::Rom2332,
            2 => SdrrRomType::Rom2364,
            3 => SdrrRomType::Rom23128,
            4 => SdrrRomType::Rom23256,
            5 => SdrrRomType::Rom23512,
            6 => SdrrRomType::Rom2704,
            7 => SdrrRomType::Rom2708,
            8 => SdrrRomType::Rom2716,
            9 => SdrrRomType::Rom2732,
            10 => SdrrRomType::Rom2764,
            11 => SdrrRomType::Rom27128,
            12 => SdrrRomType::Rom27256,
            13 => SdrrRomType::Rom27512,
            14 => SdrrRomType::Rom231024,
            15 => SdrrRomType::Rom27C010,
            16 => SdrrRomType::Rom27C020,
            17 => SdrrRomType::Rom27C040,
            18 => SdrrRomType::Rom27C080,
            19 => SdrrRomType::Rom27C400,
            20 => SdrrRomType::Ram6116,
            21 => SdrrRomType::Rom27C301,
            22 => SdrrRomType::SystemPlugin,
            23 => SdrrRomType::UserPlugin,
            24 => SdrrRomType::PioPlugin,
            25 => SdrrRomType::RomSst39sf040,
            26 => SdrrRomType::Rom28C16,
            27 => SdrrRomType::Rom28C64,
            28 => SdrrRomType::Rom28C256,
            29 => SdrrRomType::Rom28C512,
            30 => SdrrRomType::Rom23QL512,
            31 => SdrrRomType::Rom23QL384,
            32 => SdrrRomType::Rom23C1001,
            33 => SdrrRomType::Rom27C200,
            _ => return Err(Refusal::RomType),
        })
    }
}

impl fmt::Display for SdrrRomType {
    ghost output = { λ it. Some (rom_type_text it) };

    fn fmt<W: fmt::Write>(&self, f: &mut fmt::Formatter<W>) -> fmt::Result {
        f.write_str(match self {
            SdrrRomType::Rom2316 => "2316",
            SdrrRomType::Rom2332 => "2332",
            SdrrRomType::Rom2364 => "2364",
            SdrrRomType::Rom23128 => "23128",
            SdrrRomType::Rom23256 => "23256",
            SdrrRomType::Rom23512 => "23512",
            SdrrRomType::Rom2704 => "2704",
            SdrrRomType::Rom2708 => "2708",
            SdrrRomType::Rom2716 => "2716",
            SdrrRomType::Rom2732 => "2732",
            SdrrRomType::Rom2764 => "2764",
            SdrrRomType::Rom27128 => "27128",
            SdrrRomType::Rom27256 => "27256",
            SdrrRomType::Rom27512 => "27512",
            SdrrRomType::Rom231024 => "231024",
            SdrrRomType::Rom27C010 => "27C010",
            SdrrRomType::Rom27C020 => "27C020",
            SdrrRomType::Rom27C040 => "27C040",
            SdrrRomType::Rom27C080 => "27C080",
            SdrrRomType::Rom27C400 => "27C400",
            SdrrRomType::Ram6116 => "6116 (RAM)",
            SdrrRomType::Rom27C301 => "27C301",
            SdrrRomType::SystemPlugin => "System Plugin",
            SdrrRomType::UserPlugin => "User Plugin",
            SdrrRomType::PioPlugin => "PIO Plugin",
            SdrrRomType::RomSst39sf040 => "SST39SF040",
            SdrrRomType::Rom28C16 => "28C16",
            SdrrRomType::Rom28C64 => "28C64",
            SdrrRomType::Rom28C256 => "28C256",
            SdrrRomType::Rom28C512 => "28C512",
            SdrrRomType::Rom23QL512 => "23QL512",
            SdrrRomType::Rom23QL384 => "23QL384",
            SdrrRomType::Rom23C1001 => "23C1001",
            SdrrRomType::Rom27C200 => "27C200",
        })
    }
}

// The ROM type of a number; of one above 33, which every caller refuses first, the first type.
#[tactic(auto, using(crate::proofs::Past::no_rom_type))]
pub fn rom_type_of(number: u32) -> SdrrRomType
    ensures { result ≡ rom_type_of number }
{
    SdrrRomType::try_from(number).unwrap_or(SdrrRomType::Rom2316)
}

// The levels that go with a logical address, as a caller gives them: high, low, or not given, which counts as low.
#[derive(Clone, Copy, Debug, PartialEq, Eq)]
pub struct SdrrCsSet {
    pub cs1: Option<bool>,
    pub cs2: Option<bool>,
    pub cs3: Option<bool>,
    pub x1: Option<bool>,
    pub x2: Option<bool>,
}
