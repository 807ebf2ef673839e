// Mangling and demangling as C and Rust call them: the answer in a lent word.
#![tactic(auto)]

ghost use Rattle.std.specs.Prelude.{◌≡◌};
ghost use Rattle.c_board.specs.Value.{value_after};
ghost use Rattle.c_mangle.specs.Board.{mangle_call, demangle_call};

#[tactic(auto, using(demangle::specs::Refused::refused), unfolding(crate::specs::Board::mangle_call, info::specs::Lent::mangle_address, c_board::specs::Board::pins_from))]
pub fn mangle_call(
    pins_number: u8,
    rom_pins: u8,
    addr: &[u8; 16],
    control: &[u8; 7],
    served: u32,
    set_rows: &[u32],
    rom_rows: &[u32],
    address: u32,
    levels: &[u8; 5],
    value: &mut u32,
) -> u32
    ensures reply { result ≡ (mangle_call pins_number rom_pins addr.now control.now served set_rows.now rom_rows.now address levels.now).number }
    ensures value { value.new ≡ value_after result (mangle_call pins_number rom_pins addr.now control.now served set_rows.now rom_rows.now address levels.now).value value.old }
{
    let pins = c_board::pins_from(pins_number, rom_pins, [0; 8], *addr, *control);
    let set = c_board::levels_from(*levels);
    let set_0 = governing::governing_set_0(pins_number, served, set_rows, rom_rows);
    match info::mangle_by(set_0, pins, address, set) {
        Ok(mangled) => {
            *value = mangled;
            0
        }
        Err(refusal) => refusal.number() as u32,
    }
}

#[tactic(auto, using(demangle::specs::Refused::refused), unfolding(crate::specs::Board::demangle_call))]
pub fn demangle_call(pins_number: u8, data: &[u8; 8], byte: u8, value: &mut u8) -> u32
    ensures reply { result ≡ (demangle_call pins_number «data».now byte).number }
    ensures value { value.new ≡ value_after result (demangle_call pins_number «data».now byte).value value.old }
{
    match info::demangle_by(pins_number, *data, byte) {
        Ok(shown) => {
            *value = shown;
            0
        }
        Err(refusal) => refusal.number() as u32,
    }
}
