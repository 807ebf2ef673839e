// The info header's record (parsing.rs `parse_and_validate_header`): its fields read, its refusals judged.
#![tactic(auto)]

ghost use Rattle.std.specs.Prelude.{◌≡◌, ◌≤◌, length};
ghost use Rattle.prog.specs.Prog.{run};
ghost use Rattle.header.specs.Header.{version_of, header_fields, extra_pointer, whole_of, header_item, header_of, header_p};

use header::{SdrrInfoFields, SdrrInfoHeader};
use refusal::Refusal;
use version::FirmwareVersion;
use window::Window;

const HEADER_SIZE: usize = 64;

fn read_version(s: &[u8]) -> FirmwareVersion
    ensures { result ≡ version_of s.now }
{
    FirmwareVersion {
        major: le::u16_at(s, 4),
        minor: le::u16_at(s, 6),
        patch: le::u16_at(s, 8),
        build: le::u16_at(s, 10),
    }
}

#[tactic(auto, unfolding(header::specs::Header::header_fields))]
fn read_fields(s: &[u8]) -> SdrrInfoFields
    requires { 64 ≤ length s.now }
    ensures { result ≡ header_fields s.now }
{
    SdrrInfoFields {
        version: read_version(s),
        commit: runs::bytes_at(s, 16),
        stm_line: types::line_of(le::u16_at(s, 28)),
        stm_storage: types::storage_of(le::u16_at(s, 30)),
        freq: le::u16_at(s, 32),
        overclock: s[34] != 0,
        swd_enabled: s[35] != 0,
        preload_image_to_ram: s[36] != 0,
        bootloader_capable: s[37] != 0,
        status_led_enabled: s[38] != 0,
        boot_logging_enabled: s[39] != 0,
        mco_enabled: s[40] != 0,
        count_rom_access: s[42] != 0,
        boot_config: runs::bytes_at(s, 52),
    }
}

// The extra pointer, which firmware below 0.4 does not have.
fn read_extra_ptr(s: &[u8]) -> u32
    ensures { result ≡ extra_pointer s.now }
{
    if version::below_0_4(read_version(s)) {
        return u32::MAX;
    }
    le::u32_at(s, 56)
}

#[tactic(auto, unfolding(header::specs::Header::whole_of))]
fn read_whole(s: &[u8]) -> SdrrInfoHeader
    requires { 64 ≤ length s.now }
    ensures { result ≡ whole_of s.now }
{
    SdrrInfoHeader {
        fields: read_fields(s),
        build_date_ptr: le::u32_at(s, 12),
        hw_rev_ptr: le::u32_at(s, 24),
        rom_set_count: le::u8_at(s, 41),
        rom_sets_ptr: le::u32_at(s, 44),
        pins_ptr: le::u32_at(s, 48),
        extra_ptr: read_extra_ptr(s),
    }
}

// The header at the front of data.
#[tactic(auto, unfolding(header::specs::Header::header_of))]
pub fn parse_and_validate_header(data: &[u8]) -> Result<SdrrInfoHeader, Refusal>
    ensures { header_item result ≡ header_of «data».now }
{
    if data.len() < HEADER_SIZE {
        return Err(Refusal::Ended);
    }
    if !magic::starts_with(data, b"SDRR") {
        return Err(Refusal::HeaderMagic);
    }
    if 5 < le::u16_at(data, 28) {
        return Err(Refusal::McuLine);
    }
    if 7 < le::u16_at(data, 30) {
        return Err(Refusal::McuStorage);
    }
    if version::from_0_7_0(read_version(data)) {
        return Err(Refusal::FirmwareVersion);
    }
    Ok(read_whole(data))
}

// The header at the window's base plus info offset, given to `parse_and_validate_header` as the image from there onward.
#[tactic(auto, using(header::specs::Laws::header_ended, header::specs::Laws::header_onward))]
pub fn retrieve_header(w: Window, info_offset: u32) -> Result<SdrrInfoHeader, Refusal>
    ensures { header_item result ≡ run (header_p w.entry.base info_offset) w.entry.image.now }
{
    let address = w.base as u64 + info_offset as u64;
    if !w.can_read(address, HEADER_SIZE) {
        return Err(Refusal::Ended);
    }
    parse_and_validate_header(w.part_from(address))
}
