// The sixteen pins (info.rs `mangle_address`), as the bits of a word. Address pins are lowered as they are placed, the others where they are
// used.
ghost use Rattle.std.specs.Prelude.{◌≡◌, ◌&&◌, ◌||◌, map};
ghost use Rattle.base.specs.Choice.{pick};
ghost use Rattle.refusal.specs.Refusal.{valued, refused_number};
ghost use Rattle.demangle.specs.Bits.{is_bit};
ghost use Rattle.base_zero.specs.BaseZero.{lowered};
ghost use Rattle.rom_rules.specs.Code.{bit_number};
ghost use Rattle.mangle.specs.PinMap.{off, control_off};
ghost use Rattle.mangle.specs.Code.{is_high_pin, on_x, on_control, on_controls, word_number, whole_word, mangle_word};
ghost use Rattle.mangle.specs.Others.{others_from, x1_of, x2_of, controls_of};

use base_zero::{control_least, lower};
use board::BoardPins;
use demangle::bit_of;
use pin_words::{Placed, put};
use refusal::Refusal;
use rom_rules::{GoverningSet, checked_address, control_bits, rules_of};
use types::SdrrRomType;

#[tactic(auto, using(crate::proofs::Steps::high_is))]
fn is_high_pin(v: u32, pin: u8) -> bool
    ensures { result ≡ is_high_pin v pin }
{
    bit_of(v, pin)
}

// The pins of a record that are no address pins, and what they go down by. The control pins are CS1, CS2, CS3, OE, CE.
#[derive(Clone, Copy, Debug, PartialEq, Eq)]
pub struct OtherPins {
    pub lowered_by: u8,
    pub x1: u8,
    pub x2: u8,
    pub controls: [u8; 5],
}

impl OtherPins {
    // Of a record, with the least pin of it.
    pub fn of(pins: BoardPins, least: u8) -> OtherPins
        ensures { result ≡ others_from least pins }
    {
        OtherPins {
            lowered_by: control_least(least, pins),
            x1: pins.x1,
            x2: pins.x2,
            controls: [pins.cs1, pins.cs2, pins.cs3, pins.oe, pins.ce],
        }
    }

    fn x1(self) -> u8
        ensures { result ≡ x1_of self }
    {
        lower(self.lowered_by, self.x1)
    }

    fn x2(self) -> u8
        ensures { result ≡ x2_of self }
    {
        lower(self.lowered_by, self.x2)
    }

    // 72: X1 or X2 is no pin of the sixteen. 73: one of them has an address bit on it.
    fn check_x(self, mapped: u32) -> Result<(), Refusal>
        ensures { refused_number result ≡ pick (off (x1_of self) || off (x2_of self)) 72 (pick (is_high_pin mapped (x1_of self) || is_high_pin mapped (x2_of self)) 73 0) }
    {
        let x1 = self.x1();
        let x2 = self.x2();
        if 16 <= x1 || 16 <= x2 {
            return Err(Refusal::XPinOff);
        }
        if is_high_pin(mapped, x1) || is_high_pin(mapped, x2) {
            return Err(Refusal::XPinTaken);
        }
        Ok(())
    }

    // Whether the type uses the control pin and it is no pin of the sixteen.
    fn is_off(self, pin: u8, bit: Option<u8>) -> bool
        ensures { result ≡ (is_bit (bit_number bit) && off (lowered self.lowered_by pin)) }
    {
        match bit {
            Some(bit) if bit < 32 => 16 <= lower(self.lowered_by, pin),
            _ => false,
        }
    }

    #[tactic(auto, using(crate::proofs::Steps::steps))]
    fn control_off(self, bits: [Option<u8>; 5]) -> bool
        ensures { result ≡ control_off (controls_of self) (map bit_number bits) }
    {
        for (i, pin) in self.controls.iter().enumerate() {
            if self.is_off(*pin, bits[i]) {
                return true;
            }
        }
        false
    }

    // X1 and X2 are tested before either is written.
    #[tactic(auto, unfolding(crate::specs::Code::word_number))]
    fn check_word(self, mapped: u32, set: GoverningSet) -> Result<(), Refusal>
        ensures { refused_number result ≡ word_number mapped (x1_of self) (x2_of self) (controls_of self) «set».rom_count «set».rom_type }
    {
        if set.has_several_roms() {
            self.check_x(mapped)?;
        }
        if set.rom_count == 0 {
            return Err(Refusal::NoRom);
        }
        if rules_of(set.rom_type).is_none() {
            return Err(Refusal::UnsupportedType);
        }
        if self.control_off(control_bits(set.rom_type)) {
            return Err(Refusal::ControlPinOff);
        }
        Ok(())
    }

    // 72 to 76, with the pins that address bits are on.
    #[inline]
    pub fn check(self, mapped: u16, set: GoverningSet) -> Result<(), Refusal>
        ensures { refused_number result ≡ word_number mapped (x1_of self) (x2_of self) (controls_of self) «set».rom_count «set».rom_type }
    {
        self.check_word(u32::from(mapped), set)
    }

    #[tactic(auto, unfolding(crate::specs::Code::on_x))]
    fn with_x(self, v: u16, word: u32) -> u16
        ensures { result ≡ on_x v (x1_of self) (x2_of self) word }
    {
        let one = put(v, self.x1(), bit_of(word, 14));
        put(one, self.x2(), bit_of(word, 15))
    }

    // The control pin takes its input bit, if it has one.
    #[tactic(auto, unfolding(crate::specs::Code::on_control))]
    fn put_control(self, v: u16, pin: u8, bit: Option<u8>, word: u32) -> u16
        ensures { result ≡ on_control v (lowered self.lowered_by pin) (bit_number bit) word }
    {
        match bit {
            Some(bit) if bit < 32 => put(v, lower(self.lowered_by, pin), bit_of(word, bit)),
            _ => v,
        }
    }

    #[tactic(auto, using(crate::proofs::Steps::steps))]
    fn with_controls(self, v: u16, bits: [Option<u8>; 5], word: u32) -> u16
        ensures { result ≡ on_controls (controls_of self) (map bit_number bits) word v }
    {
        let mut w = v;
        for (i, pin) in self.controls.iter().enumerate() {
            w = self.put_control(w, *pin, bits[i], word);
        }
        w
    }

    // X1 and X2 with several ROMs, then the control pins.
    #[tactic(auto, unfolding(crate::specs::Code::whole_word))]
    fn whole_word(self, v: u16, set: GoverningSet, word: u32) -> u16
        ensures { result ≡ whole_word v (x1_of self) (x2_of self) (controls_of self) «set».rom_count «set».rom_type word }
    {
        let with_x = if set.has_several_roms() {
            self.with_x(v, word)
        } else {
            v
        };
        self.with_controls(with_x, control_bits(set.rom_type), word)
    }

    // The mangled address, from the address pins as placed.
    #[tactic(auto, using(demangle::specs::Refused::refused), unfolding(crate::specs::Code::mangle_word))]
    pub(crate) fn mangled(
        self,
        placed: Placed,
        set: GoverningSet,
        address: u32,
        word: u32,
    ) -> Result<u32, Refusal>
        ensures { valued result ≡ mangle_word placed (x1_of self) (x2_of self) (controls_of self) «set».rom_count «set».rom_type address word }
    {
        checked_address(self.check(placed.mapped, set), set.rom_type, address)?;
        Ok(u32::from(self.whole_word(placed.value, set, word)))
    }
}

// 72 to 76 as a number, 0 for none: of pins that go down by k, with the pins that address bits are on.
pub fn map_number(
    k: u8,
    mapped: u32,
    x1: u8,
    x2: u8,
    controls: [u8; 5],
    rom_count: u32,
    rom_type: SdrrRomType,
) -> u8
    ensures { result ≡ word_number mapped (lowered k x1) (lowered k x2) (map (lowered k) controls) rom_count rom_type }
{
    let others = OtherPins {
        lowered_by: k,
        x1,
        x2,
        controls,
    };
    let set = GoverningSet {
        rom_count,
        rom_type,
    };
    match others.check_word(mapped, set) {
        Ok(_) => 0,
        Err(refusal) => refusal.number(),
    }
}
