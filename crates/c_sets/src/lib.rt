// A set's size, and whether two are the same, as C and Rust ask: the answer in a lent word.
#![tactic(auto)]

ghost use Rattle.std.specs.Prelude.{◌≡◌};
ghost use Rattle.set_data.specs.Data.{size_call};
ghost use Rattle.same_set.specs.Same.{same_set};
ghost use Rattle.c_board.specs.Value.{value_after};

use rows::LentRows;

pub fn size_call(served: u32, set_rows: &[u32], set: u32, value: &mut u32) -> u32
    ensures reply { result ≡ (size_call served set_rows.now set).number }
    ensures value { value.new ≡ value_after result (size_call served set_rows.now set).value value.old }
{
    match set_data::get_rom_set_size(served, set_rows, set) {
        Ok(size) => {
            *value = size;
            0
        }
        Err(refusal) => refusal.number() as u32,
    }
}

pub fn same_call(
    served: u32,
    set_rows: &[u32],
    rom_rows: &[u32],
    a: u32,
    b: u32,
    value: &mut u32,
) -> u32
    ensures reply { result ≡ (same_set served set_rows.now rom_rows.now a b).number }
    ensures value { value.new ≡ value_after result (same_set served set_rows.now rom_rows.now a b).value value.old }
{
    let lent = LentRows { set_rows, rom_rows };
    match same_set::same_set(served, lent, a, b) {
        Ok(same) => {
            *value = same as u32;
            0
        }
        Err(refusal) => refusal.number() as u32,
    }
}
