// The input word (info.rs `mangle_address`): an address, with the input bits that high levels drive.
#![tactic(auto)]

ghost use Rattle.std.specs.Prelude.{◌≡◌, [], ◌∷◌, map};
ghost use Rattle.std.specs.Int.Bits.{bit_or};
ghost use Rattle.base.specs.Choice.{pick};
ghost use Rattle.types.specs.Types.{is_high};
ghost use Rattle.demangle.specs.Bits.{none};
ghost use Rattle.rom_rules.specs.Rules.{drives};
ghost use Rattle.input_word.specs.Input.{levels, bit_of, input_word};
ghost use Rattle.input_word.specs.Laws.{raised_by};

use rom_rules::GoverningSet;
use types::{SdrrCsSet, SdrrRomType};

// X1 and X2 raise input bits 14 and 15 with several ROMs.
fn words(cs1: u32, cs2: u32, cs3: u32, several: bool) -> [u32; 5]
    ensures { result ≡ (cs1 ∷ cs2 ∷ cs3 ∷ bit_of (pick several 14 none) ∷ bit_of (pick several 15 none) ∷ []) }
{
    if several {
        [cs1, cs2, cs3, 0x4000, 0x8000]
    } else {
        [cs1, cs2, cs3, 0, 0]
    }
}

// The input bits that the levels CS1, CS2, CS3, X1, X2 raise, each as a mask: no shift is left for the caller.
#[tactic(auto, unfolding(rom_rules::specs::Rules::drives, rom_rules::specs::Rules::rules_of))]
fn drive_words(set: GoverningSet) -> [u32; 5]
    ensures { result ≡ map bit_of (drives «set».rom_type «set».rom_count) }
{
    let several = set.has_several_roms();
    match set.rom_type {
        SdrrRomType::Rom2364 => words(0x2000, 0, 0, several),
        SdrrRomType::Rom2332 | SdrrRomType::Rom2716 | SdrrRomType::Rom2732 => {
            words(0x2000, 0x1000, 0, several)
        }
        SdrrRomType::Rom2316 => words(0x2000, 0x1000, 0x800, several),
        _ => words(0, 0, 0, several),
    }
}

// A level not given is low.
#[tactic(auto, unfolding(types::specs::Types::is_high))]
fn is_high(level: Option<bool>) -> bool
    ensures { result ≡ is_high level }
{
    level.unwrap_or(false)
}

// Which of CS1, CS2, CS3, X1, X2 are high.
pub fn levels(cs_set: SdrrCsSet) -> [bool; 5]
    ensures { result ≡ levels cs_set }
{
    [
        is_high(cs_set.cs1),
        is_high(cs_set.cs2),
        is_high(cs_set.cs3),
        is_high(cs_set.x1),
        is_high(cs_set.x2),
    ]
}

// The word with the masks of the high levels raised.
#[tactic(auto, using(crate::proofs::Steps::raised_high, crate::proofs::Steps::raised_low, crate::proofs::Steps::raised_end))]
fn raised(masks: [u32; 5], levels: [bool; 5], word: u32) -> u32
    ensures { result ≡ raised_by masks levels word }
{
    let mut w = word;
    for (i, high) in levels.iter().enumerate() {
        if *high {
            w |= masks[i];
        }
    }
    w
}

// The address, with the input bits that high levels drive.
#[tactic(auto, using(crate::specs::Laws::masks_raise), unfolding(crate::specs::Input::input_word))]
pub fn input_word(set: GoverningSet, levels: [bool; 5], address: u32) -> u32
    ensures { result ≡ input_word «set».rom_type «set».rom_count levels address }
{
    raised(drive_words(set), levels, address)
}
