// The pins record (parsing.rs `read_pins`): its fields read, its refusals judged.
#![tactic(auto)]

ghost use Rattle.std.specs.Prelude.{◌≡◌, ◌++◌, ◌≤◌, eqb, length};
ghost use Rattle.base.specs.Choice.{pick};
ghost use Rattle.le.specs.Le.{u8_at};
ghost use Rattle.runs.specs.Runs.{eight_at, sixteen_at};
ghost use Rattle.prog.specs.Prog.{run};
ghost use Rattle.pins.specs.Pins.{eight_zeros, pins_fields, unknown_port, pins_item, pins_of, pins_p};

use pins::SdrrPins;
use refusal::Refusal;
use window::Window;

const PINS_SIZE: usize = 88;

// Whether one of the five ports is none of the known ones.
fn unknown_port(s: &[u8]) -> bool
    requires { 88 ≤ length s.now }
    ensures { result ≡ unknown_port s.now }
{
    s[..5].iter().any(|port| 5 < *port)
}

// Extended is exactly 1: any other byte gives zeros for the second pins.
#[tactic(auto, unfolding(pins::specs::Pins::pins_fields))]
fn read_fields(s: &[u8]) -> SdrrPins
    requires { 88 ≤ length s.now }
    ensures { result ≡ pins_fields s.now }
{
    let (data2, addr2) = if s[63] == 1 {
        (runs::bytes_at(s, 64), runs::bytes_at(s, 72))
    } else {
        ([0; 8], [0; 16])
    };
    SdrrPins {
        data_port: types::port_of(s[0]),
        addr_port: types::port_of(s[1]),
        cs_port: types::port_of(s[2]),
        sel_port: types::port_of(s[3]),
        status_port: types::port_of(s[4]),
        rom_pins: s[5],
        data: runs::bytes_at(s, 8),
        addr: runs::bytes_at(s, 16),
        cs1: s[36],
        cs2: s[37],
        cs3: s[38],
        reserved2a: s[39],
        reserved2b: s[40],
        reserved2c: s[41],
        x1: s[42],
        x2: s[43],
        ce: s[44],
        oe: s[45],
        x_jumper_pull: s[46],
        swclk_sel: s[50],
        swdio_sel: s[51],
        sel0: s[52],
        sel1: s[53],
        sel2: s[54],
        sel3: s[55],
        sel4: s[56],
        sel5: s[57],
        sel6: s[58],
        sel_jumper_pull: s[59],
        status: s[60],
        extended: s[63],
        data2,
        addr2,
    }
}

// The record at the front of data.
#[tactic(auto, unfolding(pins::specs::Pins::pins_of))]
pub fn parse_pins(data: &[u8]) -> Result<SdrrPins, Refusal>
    ensures { pins_item result ≡ pins_of «data».now }
{
    if data.len() < PINS_SIZE {
        return Err(Refusal::Ended);
    }
    if unknown_port(data) {
        return Err(Refusal::McuPort);
    }
    Ok(read_fields(data))
}

// The record at a pointer, given to `parse_pins` as the image from there onward.
#[tactic(auto, using(pins::specs::Laws::pins_pointer_refused, pins::specs::Laws::pins_pointer_read))]
pub fn read_pins(w: Window, ptr: u32) -> Result<SdrrPins, Refusal>
    ensures { pins_item result ≡ run (pins_p w.entry.base ptr) w.entry.image.now }
{
    parse_pins(w.record_at(ptr, PINS_SIZE)?)
}
