// Metadata (parsing.rs `read_one_rom_metadata_header_info`, judged in lib.rs `parse_flash`).
#![tactic(auto)]

ghost use Rattle.std.specs.Prelude.{◌≡◌};
ghost use Rattle.prog.specs.Prog.{run};
ghost use Rattle.metadata.specs.Metadata.{metadata_answer, metadata_shown, metadata_of, metadata_p};

use refusal::Refusal;
use window::Window;

const METADATA_SIZE: usize = 256;

// Where the sets stand, and how many there are.
#[derive(Clone, Copy)]
pub struct OneRomMetadataHeader {
    pub rom_set_count: u8,
    pub rom_sets_ptr: u32,
}

// The metadata item of the report: its number, or the mark that it was not looked for.
#[derive(Clone, Copy)]
pub enum MetadataItem {
    NotLookedFor,
    Looked(u8),
}

// The item of metadata that was looked for, or not.
pub fn metadata_shown(m: Option<Result<(), Refusal>>) -> MetadataItem
    ensures { result ≡ metadata_shown m }
{
    match m {
        None => MetadataItem::NotLookedFor,
        Some(Ok(())) => MetadataItem::Looked(0),
        Some(Err(refusal)) => MetadataItem::Looked(refusal.number()),
    }
}

// The record at the front of data. A count of 0 is accepted at any pointer.
#[tactic(auto, unfolding(crate::specs::Metadata::metadata_of))]
pub fn parse_metadata(data: &[u8]) -> Result<OneRomMetadataHeader, Refusal>
    ensures { metadata_answer result ≡ metadata_of «data».now }
{
    if data.len() < METADATA_SIZE {
        return Err(Refusal::Ended);
    }
    if !magic::starts_with(data, b"ONEROM_METADATA\0") {
        return Err(Refusal::MetadataMagic);
    }
    if le::u32_at(data, 16) != 1 {
        return Err(Refusal::MetadataVersion);
    }
    let rom_set_count = le::u8_at(data, 20);
    let rom_sets_ptr = le::u32_at(data, 24);
    if 0 < rom_set_count && rom_sets_ptr == 0 {
        return Err(Refusal::NoSetsPointer);
    }
    Ok(OneRomMetadataHeader {
        rom_set_count,
        rom_sets_ptr,
    })
}

// The record at a pointer, given to `parse_metadata` as the image from there onward.
#[tactic(auto, using(crate::specs::Laws::metadata_pointer_refused, crate::specs::Laws::metadata_pointer_read))]
pub fn read_one_rom_metadata_header_info(
    w: Window,
    ptr: u32,
) -> Result<OneRomMetadataHeader, Refusal>
    ensures { metadata_answer result ≡ run (metadata_p w.entry.base ptr) w.entry.image.now }
{
    parse_metadata(w.record_at(ptr, METADATA_SIZE)?)
}
