// Whether a lent ROM row may be used, and its type.
#![tactic(auto)]

ghost use Rattle.std.specs.Prelude.{◌≡◌};
ghost use Rattle.types.specs.Types.{rom_type_of};
ghost use Rattle.rows.specs.LentRows.{type_word, bad_rom_row};

use rows::{LentRows, RomWord};
use types::SdrrRomType;

pub fn is_bad_rom_row(lent: LentRows, row: u32) -> bool
    ensures { result ≡ bad_rom_row lent.entry.rom_rows.now row }
{
    !lent.has_rom_row(row) || 33 < lent.rom_word(row, RomWord::Type)
}

pub fn rom_type(lent: LentRows, row: u32) -> SdrrRomType
    ensures { result ≡ rom_type_of (type_word lent.entry.rom_rows.now row) }
{
    types::rom_type_of(lent.rom_word(row, RomWord::Type))
}
