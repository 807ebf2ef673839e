// The calls on an opened board (info.rs): mangling by set 0 or by the named set, demangling. They go by the report and rows as lent.
#![tactic(auto)]

ghost use Rattle.std.specs.Prelude.{◌≡◌};
ghost use Rattle.refusal.specs.Refusal.{valued};
ghost use Rattle.governing.specs.Governing.{governing_item};
ghost use Rattle.info.specs.Lent.{mangled_by, mangle_address, mangle_own, demangled_by, demangle_byte};

use board::BoardPins;
use refusal::Refusal;
use rom_rules::GoverningSet;
use types::SdrrCsSet;

// An address in a set: a raw offset, or a logical address with its levels.
#[derive(Clone, Copy)]
pub enum SdrrAddress {
    Raw(u32),
    Logical(u32, SdrrCsSet),
}

// By the set that governs, or what refuses it.
#[inline]
#[tactic(auto, unfolding(crate::specs::Lent::mangled_by))]
pub fn mangle_by(
    set: Result<GoverningSet, Refusal>,
    pins: BoardPins,
    address: u32,
    cs_set: SdrrCsSet,
) -> Result<u32, Refusal>
    ensures { valued result ≡ mangled_by (governing_item «set») pins address cs_set }
{
    mangle::mangle_core(pins, set?, address, cs_set)
}

// By set 0.
#[tactic(auto, unfolding(crate::specs::Lent::mangle_address))]
pub fn mangle_address(
    pins: BoardPins,
    served: u32,
    set_rows: &[u32],
    rom_rows: &[u32],
    address: u32,
    cs_set: SdrrCsSet,
) -> Result<u32, Refusal>
    ensures { valued result ≡ mangle_address pins served set_rows.now rom_rows.now address cs_set }
{
    let set_0 = governing::governing_set_0(pins.number, served, set_rows, rom_rows);
    mangle_by(set_0, pins, address, cs_set)
}

// By the named set's own ROMs.
#[tactic(auto, unfolding(crate::specs::Lent::mangle_own))]
pub fn mangle_own(
    pins: BoardPins,
    served: u32,
    set_rows: &[u32],
    rom_rows: &[u32],
    set: u32,
    address: u32,
    cs_set: SdrrCsSet,
) -> Result<u32, Refusal>
    ensures { valued result ≡ mangle_own pins served set_rows.now rom_rows.now «set» address cs_set }
{
    let own = governing::governing_own(pins.number, served, set_rows, rom_rows, set);
    mangle_by(own, pins, address, cs_set)
}

// By the number of the pins item and its data pins.
pub fn demangle_by(pins_number: u8, data: [u8; 8], byte: u8) -> Result<u8, Refusal>
    ensures { valued result ≡ demangled_by pins_number «data» byte }
{
    if pins_number != 0 {
        return Err(Refusal::NoPins);
    }
    demangle::demangle_core(data, byte)
}

#[tactic(auto, unfolding(crate::specs::Lent::demangle_byte))]
pub fn demangle_byte(pins: BoardPins, byte: u8) -> Result<u8, Refusal>
    ensures { valued result ≡ demangle_byte pins byte }
{
    demangle_by(pins.number, pins.data, byte)
}
