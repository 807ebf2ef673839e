// The sixteen-pin map as a value, made once for many addresses (info.rs `mangle_address`). `by_map` in mangle's laws says that mangling an
// address is placing its input word under this map.
#![tactic(auto)]

ghost use Rattle.std.specs.Prelude.{◌≡◌, map, slice_set};
ghost use Rattle.refusal.specs.Refusal.{refused_number};
ghost use Rattle.rom_rules.specs.Code.{bit_number};
ghost use Rattle.mangle.specs.PinMap.{control_pins, address_map, with_x, with_control, with_controls, whole_map, pin_map};
ghost use Rattle.pin_map.specs.Item.{pin_map_item};

use base_zero::base_zero;
use board::BoardPins;
use least_pin::least_pin;
use mangle::map::OtherPins;
use pin_words::address_pins;
use refusal::Refusal;
use rom_rules::{GoverningSet, control_bits};
use types::SdrrRomType;

// Pin takes bit; a pin past the sixteen is left out.
fn put(pins: &mut [u8], pin: u8, bit: u8)
    ensures { pins.new ≡ slice_set pins.old pin bit }
{
    let at = pin as usize;
    if at < pins.len() {
        pins[at] = bit;
    }
}

// A later address bit wins over an earlier one on the same pin.
#[tactic(auto, using(crate::proofs::Steps::steps))]
fn address_map(addr: [u8; 16]) -> [u8; 16]
    ensures { result ≡ address_map addr }
{
    let mut pins = [255; 16];
    for (i, pin) in addr.iter().enumerate() {
        put(&mut pins, *pin, i as u8);
    }
    pins
}

// X2 wins where X1 and X2 are one pin.
#[tactic(auto, unfolding(mangle::specs::PinMap::with_x))]
fn with_x(taken: [u8; 16], x1: u8, x2: u8) -> [u8; 16]
    ensures { result ≡ with_x taken x1 x2 }
{
    let mut pins = taken;
    put(&mut pins, x1, 14);
    put(&mut pins, x2, 15);
    pins
}

// The control pin takes its input bit, if it has one, whatever the pin took before.
#[tactic(auto, unfolding(mangle::specs::PinMap::with_control))]
fn put_control(pins: &mut [u8], pin: u8, bit: Option<u8>)
    ensures { pins.new ≡ with_control pins.old pin (bit_number bit) }
{
    match bit {
        Some(bit) if bit < 32 => put(pins, pin, bit),
        _ => (),
    }
}

#[tactic(auto, using(crate::proofs::Steps::steps))]
fn with_controls(taken: [u8; 16], controls: [u8; 5], bits: [Option<u8>; 5]) -> [u8; 16]
    ensures { result ≡ with_controls controls (map bit_number bits) taken }
{
    let mut pins = taken;
    for (i, pin) in controls.iter().enumerate() {
        put_control(&mut pins, *pin, bits[i]);
    }
    pins
}

// X1 and X2 with several ROMs, then the control pins; of pins that are counted from zero.
#[tactic(auto, unfolding(mangle::specs::PinMap::whole_map))]
fn whole_map(addressed: [u8; 16], p: BoardPins, set: GoverningSet) -> [u8; 16]
    ensures { result ≡ whole_map addressed p.x1 p.x2 (control_pins p) «set».rom_count «set».rom_type }
{
    let taken = if set.has_several_roms() {
        with_x(addressed, p.x1, p.x2)
    } else {
        addressed
    };
    let controls = [p.cs1, p.cs2, p.cs3, p.oe, p.ce];
    with_controls(taken, controls, control_bits(set.rom_type))
}

// 72 to 76 of a pins record's map. Which pins have an address bit does not depend on the word.
pub fn check_pin_map(pins: BoardPins, set: GoverningSet) -> Result<(), Refusal>
    ensures { refused_number result ≡ (pin_map pins «set».rom_count «set».rom_type).number }
{
    let least = least_pin(pins);
    let placed = address_pins(least, pins.addr, 0);
    OtherPins::of(pins, least).check(placed.mapped, set)
}

// The same as a number, 0 for none, of any count and type.
pub fn pin_map_number(pins: BoardPins, rom_count: u32, rom_type: SdrrRomType) -> u8
    ensures { result ≡ (pin_map pins rom_count rom_type).number }
{
    let set = GoverningSet {
        rom_count,
        rom_type,
    };
    match check_pin_map(pins, set) {
        Ok(_) => 0,
        Err(refusal) => refusal.number(),
    }
}

// The map of a pins record, by the set that governs: which input bit each of the sixteen pins takes, 255 for none.
#[tactic(auto, unfolding(mangle::specs::PinMap::pin_map, mangle::specs::PinMap::map_of, mangle::specs::PinMap::map_by))]
pub fn pin_map(pins: BoardPins, set: GoverningSet) -> Result<[u8; 16], Refusal>
    ensures { pin_map_item result ≡ pin_map pins «set».rom_count «set».rom_type }
{
    check_pin_map(pins, set)?;
    let p = base_zero(pins);
    Ok(whole_map(address_map(p.addr), p, set))
}
