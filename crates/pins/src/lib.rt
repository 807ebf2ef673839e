// The pins (info.rs `SdrrPins`) as a value; pins_record reads them.
#![tactic(auto)]

ghost use Rattle.std.specs.Prelude.{◌≡◌};
ghost use Rattle.pins.specs.Pins.{no_pins, refused_pins, pins_item};

use refusal::Refusal;
use types::SdrrMcuPort;

// All pin fields are numbers of physical pins, 255 where there is none; an array's index is the address or data line.
#[derive(Clone, Copy)]
pub struct SdrrPins {
    pub data_port: SdrrMcuPort,
    pub addr_port: SdrrMcuPort,
    pub cs_port: SdrrMcuPort,
    pub sel_port: SdrrMcuPort,
    pub status_port: SdrrMcuPort,
    pub rom_pins: u8,
    pub data: [u8; 8],
    pub addr: [u8; 16],
    pub cs1: u8,
    pub cs2: u8,
    pub cs3: u8,
    pub reserved2a: u8,
    pub reserved2b: u8,
    pub reserved2c: u8,
    pub x1: u8,
    pub x2: u8,
    pub ce: u8,
    pub oe: u8,
    pub x_jumper_pull: u8,
    pub swclk_sel: u8,
    pub swdio_sel: u8,
    pub sel0: u8,
    pub sel1: u8,
    pub sel2: u8,
    pub sel3: u8,
    pub sel4: u8,
    pub sel5: u8,
    pub sel6: u8,
    pub sel_jumper_pull: u8,
    pub status: u8,
    pub extended: u8,
    pub data2: [u8; 8],
    pub addr2: [u8; 16],
}

// The pins item: 0 accepted, or its number with pins that are all zero.
#[derive(Clone, Copy)]
pub struct PinsItem {
    pub number: u8,
    pub pins: SdrrPins,
}

#[tactic(auto, unfolding(crate::specs::Pins::no_pins))]
fn no_pins() -> SdrrPins
    ensures { result ≡ no_pins }
{
    SdrrPins {
        data_port: SdrrMcuPort::None,
        addr_port: SdrrMcuPort::None,
        cs_port: SdrrMcuPort::None,
        sel_port: SdrrMcuPort::None,
        status_port: SdrrMcuPort::None,
        rom_pins: 0,
        data: [0; 8],
        addr: [0; 16],
        cs1: 0,
        cs2: 0,
        cs3: 0,
        reserved2a: 0,
        reserved2b: 0,
        reserved2c: 0,
        x1: 0,
        x2: 0,
        ce: 0,
        oe: 0,
        x_jumper_pull: 0,
        swclk_sel: 0,
        swdio_sel: 0,
        sel0: 0,
        sel1: 0,
        sel2: 0,
        sel3: 0,
        sel4: 0,
        sel5: 0,
        sel6: 0,
        sel_jumper_pull: 0,
        status: 0,
        extended: 0,
        data2: [0; 8],
        addr2: [0; 16],
    }
}

pub fn refuse(number: u8) -> PinsItem
    ensures { result ≡ refused_pins number }
{
    let pins = no_pins();
    PinsItem { number, pins }
}

// The item of a result.
pub fn pins_item(r: Result<SdrrPins, Refusal>) -> PinsItem
    ensures { result ≡ pins_item r }
{
    match r {
        Ok(pins) => PinsItem { number: 0, pins },
        Err(refusal) => refuse(refusal.number()),
    }
}
