// A set's header and a ROM table's entries, as both passes of the walk read them (parsing.rs `read_rom_sets`, `read_rom_infos`); and the running total
// that both keep.
#![tactic(auto)]

ghost use Rattle.std.specs.Prelude.{◌≡◌, ◌+◌, ◌≤◌};
ghost use Rattle.set_header.specs.SetHeader.{info_pointer, pointed, config_of, overrides_of, stride_of};

use window::Window;

// The pointer in an entry of the table.
pub fn info_ptr(w: Window, entry: u64) -> u32
    ensures { result ≡ info_pointer w.entry.image.now w.entry.base entry }
{
    le::u32_at(w.part_from(entry), 0)
}

// A pointer that counts and is there, or 0, which in a row's word, as C sees it, says that there is none.
#[tactic(auto, unfolding(crate::specs::SetHeader::pointed))]
fn pointed_at(counts: bool, ptr: u32) -> u32
    ensures { result ≡ pointed counts ptr }
{
    if counts && ptr != 0 && ptr != 4294967295 {
        ptr
    } else {
        0
    }
}

pub fn serve_config(s: &[u8]) -> u32
    ensures { result ≡ config_of s.now }
{
    pointed_at(le::u8_at(s, 15) == 1, le::u32_at(s, 16))
}

pub fn firmware_overrides(s: &[u8]) -> u32
    ensures { result ≡ overrides_of s.now }
{
    pointed_at(le::u8_at(s, 15) == 1, le::u32_at(s, 20))
}

// The stride is 16, plus 48 where the longer one is known and the extra byte is 1.
pub fn set_stride(long: bool, s: &[u8]) -> u64
    ensures { result ≡ stride_of long s.now }
{
    if long && le::u8_at(s, 15) == 1 {
        64
    } else {
        16
    }
}

// The running total once a set is taken on: its count of ROMs is added to what the earlier sets have. No board has more than 65,025 ROMs.
pub fn total_with(total: u32, roms: u8) -> u32
    requires { total ≤ 65025 }
    ensures { result ≡ total + roms }
{
    total + roms as u32
}
