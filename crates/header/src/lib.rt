// The info header (parsing.rs `SdrrInfoHeader`) as a value; header_record reads it.
#![tactic(auto)]

ghost use Rattle.std.specs.Prelude.{◌≡◌};
ghost use Rattle.header.specs.Header.{no_header, has_filenames};

use types::{McuLine, McuStorage};
use version::FirmwareVersion;

// The header's fields that the report keeps.
#[derive(Clone, Copy)]
pub struct SdrrInfoFields {
    pub version: FirmwareVersion,
    pub commit: [u8; 8],
    pub stm_line: McuLine,
    pub stm_storage: McuStorage,
    pub freq: u16,
    pub overclock: bool,
    pub swd_enabled: bool,
    pub preload_image_to_ram: bool,
    pub bootloader_capable: bool,
    pub status_led_enabled: bool,
    pub boot_logging_enabled: bool,
    pub mco_enabled: bool,
    pub count_rom_access: bool,
    pub boot_config: [u8; 4],
}

// The whole header: those fields, and what the opening goes on with.
#[derive(Clone, Copy)]
pub struct SdrrInfoHeader {
    pub fields: SdrrInfoFields,
    pub build_date_ptr: u32,
    pub hw_rev_ptr: u32,
    pub rom_set_count: u8,
    pub rom_sets_ptr: u32,
    pub pins_ptr: u32,
    pub extra_ptr: u32,
}

// ROM infos have filenames from 0.5.1, or where boot logging is on.
pub fn filenames_enabled(fields: SdrrInfoFields) -> bool
    ensures { result ≡ has_filenames fields }
{
    version::from_0_5_1(fields.version) || fields.boot_logging_enabled
}

#[tactic(auto, unfolding(crate::specs::Header::no_header))]
pub fn no_fields() -> SdrrInfoFields
    ensures { result ≡ no_header.fields }
{
    SdrrInfoFields {
        version: FirmwareVersion {
            major: 0,
            minor: 0,
            patch: 0,
            build: 0,
        },
        commit: [0; 8],
        stm_line: McuLine::F401DE,
        stm_storage: McuStorage::Storage8,
        freq: 0,
        overclock: false,
        swd_enabled: false,
        preload_image_to_ram: false,
        bootloader_capable: false,
        status_led_enabled: false,
        boot_logging_enabled: false,
        mco_enabled: false,
        count_rom_access: false,
        boot_config: [0; 4],
    }
}
