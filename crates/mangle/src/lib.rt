// Mangling a logical address (info.rs `mangle_address`).
#![tactic(auto)]

pub mod map; // the sixteen pins

ghost use Rattle.std.specs.Prelude.{◌≡◌};
ghost use Rattle.refusal.specs.Refusal.{valued};
ghost use Rattle.mangle.specs.Mangle.{mangle_core};

use board::BoardPins;
use input_word::{input_word, levels};
use least_pin::least_pin;
use map::OtherPins;
use pin_words::address_pins;
use refusal::Refusal;
use rom_rules::GoverningSet;
use types::SdrrCsSet;

// The mangled address, by the set that governs.
pub fn mangle_core(
    pins: BoardPins,
    set: GoverningSet,
    address: u32,
    cs_set: SdrrCsSet,
) -> Result<u32, Refusal>
    ensures { valued result ≡ mangle_core pins «set».rom_count «set».rom_type address cs_set }
{
    let least = least_pin(pins);
    let word = input_word(set, levels(cs_set), address);
    let placed = address_pins(least, pins.addr, word);
    OtherPins::of(pins, least).mangled(placed, set, address, word)
}
