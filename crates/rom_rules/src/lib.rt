// What mangling goes by for each type of ROM (info.rs `mangle_address`): its mask and control pins, 77 and 78.
#![tactic(auto)]

ghost use Rattle.std.specs.Prelude.{◌≡◌, true, map, IfSome};
ghost use Rattle.std.specs.List.{list_all};
ghost use Rattle.refusal.specs.Refusal.{refused_number};
ghost use Rattle.rom_rules.specs.Rules.{rules_of, mask, control_bits, several, mangle_number};
ghost use Rattle.rom_rules.specs.Code.{bit_number, is_input, rule_bits, shown_rules};

use refusal::Refusal;
use types::SdrrRomType;

// What mangling goes by for a type of ROM. The mask is the largest address. cs1 to ce say to which input bit the
// control pin goes, by_cs1 to by_cs3 which input bit the level raises.
#[derive(Clone, Copy, Debug, PartialEq, Eq)]
pub struct TypeRules {
    pub mask: u32,
    pub cs1: Option<u8>,
    pub cs2: Option<u8>,
    pub cs3: Option<u8>,
    pub oe: Option<u8>,
    pub ce: Option<u8>,
    pub by_cs1: Option<u8>,
    pub by_cs2: Option<u8>,
    pub by_cs3: Option<u8>,
}

// No control pin is used, and no level raises a bit.
const ADDRESS_ONLY: TypeRules = TypeRules {
    mask: 0,
    cs1: None,
    cs2: None,
    cs3: None,
    oe: None,
    ce: None,
    by_cs1: None,
    by_cs2: None,
    by_cs3: None,
};

// A type that chip selects govern.
fn selected(mask: u32, cs1: u8, cs2: Option<u8>, cs3: Option<u8>) -> TypeRules
    ensures { result ≡ record { mask = mask; cs1 = Some cs1; cs2 = cs2; cs3 = cs3; oe = None; ce = None; by_cs1 = None; by_cs2 = None; by_cs3 = None } }
{
    TypeRules {
        mask,
        cs1: Some(cs1),
        cs2,
        cs3,
        ..ADDRESS_ONLY
    }
}

// A type that OE and CE govern.
fn enabled(mask: u32, oe: u8, ce: u8) -> TypeRules
    ensures { result ≡ record { mask = mask; cs1 = None; cs2 = None; cs3 = None; oe = Some oe; ce = Some ce; by_cs1 = None; by_cs2 = None; by_cs3 = None } }
{
    TypeRules {
        mask,
        oe: Some(oe),
        ce: Some(ce),
        ..ADDRESS_ONLY
    }
}

impl TypeRules {
    // With the input bits that the levels CS1, CS2, CS3 raise.
    fn raising(self, cs1: u8, cs2: Option<u8>, cs3: Option<u8>) -> TypeRules
        ensures { result ≡ record self { by_cs1 = Some cs1; by_cs2 = cs2; by_cs3 = cs3 } }
    {
        TypeRules {
            by_cs1: Some(cs1),
            by_cs2: cs2,
            by_cs3: cs3,
            ..self
        }
    }
}

// None: logical reads do not cover the type.
#[tactic(auto, unfolding(crate::specs::Rules::rules_of))]
pub fn rules_of(rom_type: SdrrRomType) -> Option<TypeRules>
    ensures shown { shown_rules result ≡ rules_of rom_type }
    ensures bits { IfSome result (λ r. list_all is_input (rule_bits r) ≡ true) }
{
    Some(match rom_type {
        SdrrRomType::Rom2364 => selected(0x1FFF, 13, None, None).raising(13, None, None),
        SdrrRomType::Rom2332 => selected(0x0FFF, 13, Some(12), None).raising(13, Some(12), None),
        SdrrRomType::Rom2316 => selected(0x07FF, 13, Some(11), Some(12)).raising(
            13,
            Some(12),
            Some(11),
        ),
        SdrrRomType::Rom2716 => enabled(0x07FF, 13, 11).raising(13, Some(12), None),
        SdrrRomType::Rom28C16 => enabled(0x07FF, 13, 11),
        SdrrRomType::Rom2732 => enabled(0x0FFF, 13, 11).raising(13, Some(12), None),
        SdrrRomType::Rom2764 | SdrrRomType::Rom28C64 => enabled(0x1FFF, 16, 17),
        SdrrRomType::Rom23128 => selected(0x3FFF, 16, Some(17), Some(14)),
        SdrrRomType::Rom27128 => enabled(0x3FFF, 16, 17),
        SdrrRomType::Rom23256 => selected(0x7FFF, 16, Some(17), None),
        SdrrRomType::Rom27256 | SdrrRomType::Rom28C256 => enabled(0x7FFF, 16, 17),
        SdrrRomType::Rom23512 => selected(0xFFFF, 16, Some(17), None),
        SdrrRomType::Rom27512 => enabled(0xFFFF, 16, 17),
        SdrrRomType::Rom231024 => selected(0x1FFFF, 17, None, None),
        _ => return None,
    })
}

// What mangling goes by of the set that governs: its ROM count and the type of its first ROM.
#[derive(Clone, Copy, Debug, PartialEq, Eq)]
pub struct GoverningSet {
    pub rom_count: u32,
    pub rom_type: SdrrRomType,
}

impl GoverningSet {
    // Then X1 and X2 are used.
    pub fn has_several_roms(self) -> bool
        ensures { result ≡ several self.rom_count }
    {
        2 <= self.rom_count
    }
}

// The largest address; of a type that logical reads do not cover, 0.
fn mask(rom_type: SdrrRomType) -> u32
    ensures { result ≡ mask rom_type }
{
    rules_of(rom_type).map_or(0, |rules| rules.mask)
}

// The input bits of the control pins, in the order in which they are written: CS1, CS2, CS3, OE, CE.
pub fn control_bits(rom_type: SdrrRomType) -> [Option<u8>; 5]
    ensures shown { map bit_number result ≡ control_bits rom_type }
    ensures bits { list_all is_input result ≡ true }
{
    match rules_of(rom_type) {
        Some(r) => [r.cs1, r.cs2, r.cs3, r.oe, r.ce],
        None => [None; 5],
    }
}

// The map's number first, whichever it is, then 77, then 78.
#[tactic(auto, unfolding(crate::specs::Rules::mangle_number))]
pub fn mangle_number(n: u8, rom_type: SdrrRomType, address: u32) -> u8
    ensures { result ≡ mangle_number n rom_type address }
{
    if n != 0 {
        return n;
    }
    match checked_address(Ok(()), rom_type, address) {
        Ok(_) => 0,
        Err(refusal) => refusal.number(),
    }
}

// The map's refusal first, then 77, then 78.
#[tactic(auto, using(crate::proofs::Steps::is_16, crate::proofs::Steps::no_16), unfolding(crate::specs::Rules::mangle_number))]
pub fn checked_address(
    map: Result<(), Refusal>,
    rom_type: SdrrRomType,
    address: u32,
) -> Result<(), Refusal>
    ensures { refused_number result ≡ mangle_number (refused_number map) rom_type address }
{
    map?;
    if mask(rom_type) < address {
        return Err(Refusal::AboveMask);
    }
    if rom_type == SdrrRomType::Rom28C16 {
        return Err(Refusal::Rom28C16);
    }
    Ok(())
}
