// The exported entry points: include/onerom.h declares them. Each is a line over the one of its name in onerom, with the same statement.
#![tactic(auto)]

pub mod opening;
pub mod reads;

ghost use Rattle.std.specs.Prelude.{◌≡◌};
ghost use Rattle.runtime_info.specs.Runtime.{runtime_of};
ghost use Rattle.runtime_info.specs.Words.{number_of, words_after};
ghost use Rattle.text.specs.Text.{string_call, part_after};
ghost use Rattle.c_board.specs.Value.{value_after};
ghost use Rattle.c_mangle.specs.Board.{mangle_call, demangle_call};

#[unsafe(no_mangle)]
pub extern "C" fn onerom_runtime(record: &[u8], ram_base: u32, words: &mut [u32; 25]) -> u32
    ensures reply { result ≡ number_of (runtime_of «record».now ram_base) }
    ensures words { words.new ≡ words_after (runtime_of «record».now ram_base) words.old }
{
    onerom::onerom_runtime(record, ram_base, words)
}

#[unsafe(no_mangle)]
pub extern "C" fn onerom_string(
    image: &[u8],
    base: u32,
    pointer: u32,
    part: &mut [u32; text::PART_WORDS],
) -> u32
    ensures reply { result ≡ (string_call base pointer image.now).number }
    ensures part { part.new ≡ part_after (string_call base pointer image.now) part.old }
{
    onerom::onerom_string(image, base, pointer, part)
}

#[unsafe(no_mangle)]
pub extern "C" fn onerom_mangle(
    pins_number: u8,
    rom_pins: u8,
    addr: &[u8; 16],
    control: &[u8; 7],
    served: u32,
    set_rows: &[u32],
    rom_rows: &[u32],
    address: u32,
    levels: &[u8; 5],
    value: &mut u32,
) -> u32
    ensures reply { result ≡ (mangle_call pins_number rom_pins addr.now control.now served set_rows.now rom_rows.now address levels.now).number }
    ensures value { value.new ≡ value_after result (mangle_call pins_number rom_pins addr.now control.now served set_rows.now rom_rows.now address levels.now).value value.old }
{
    onerom::onerom_mangle(
        pins_number,
        rom_pins,
        addr,
        control,
        served,
        set_rows,
        rom_rows,
        address,
        levels,
        value,
    )
}

#[unsafe(no_mangle)]
pub extern "C" fn onerom_demangle(pins_number: u8, data: &[u8; 8], byte: u8, value: &mut u8) -> u32
    ensures reply { result ≡ (demangle_call pins_number «data».now byte).number }
    ensures value { value.new ≡ value_after result (demangle_call pins_number «data».now byte).value value.old }
{
    onerom::onerom_demangle(pins_number, data, byte, value)
}
