// Metadata, looked for or not, and what the walk then goes by.
#![tactic(auto)]

ghost use Rattle.std.specs.Prelude.{◌≡◌};
ghost use Rattle.prog.specs.Prog.{run};
ghost use Rattle.sets_source.specs.Looked.{look_p};
ghost use Rattle.sets_source.specs.Code.{source_of, source_shown};

use header::SdrrInfoHeader;
use metadata::OneRomMetadataHeader;
use refusal::Refusal;
use window::Window;

// What metadata gave, where it was looked for, and what the walk goes by, unless metadata ended: the header's count and pointer below 0.5.0,
// metadata's from then on.
#[derive(Clone, Copy)]
pub struct SetsSource {
    pub metadata: Option<Result<(), Refusal>>,
    pub sets: Option<OneRomMetadataHeader>,
}

impl SetsSource {
    // The set count of the report.
    pub fn rom_set_count(self) -> u8
        ensures { result ≡ (source_shown self).rom_set_count }
    {
        self.sets.map_or(0, |sets| sets.rom_set_count)
    }
}

#[tactic(auto, using(crate::specs::Laws::not_looked_for_is, crate::specs::Laws::looked_for))]
pub fn sets_source(w: Window, header: SdrrInfoHeader) -> SetsSource
    ensures { source_shown result ≡ source_of header (run (look_p w.entry.base header) w.entry.image.now) }
{
    let fields = header.fields;
    if !version::from_0_5_0(fields.version) {
        return SetsSource {
            metadata: None,
            sets: Some(OneRomMetadataHeader {
                rom_set_count: header.rom_set_count,
                rom_sets_ptr: header.rom_sets_ptr,
            }),
        };
    }
    let m = metadata::read_one_rom_metadata_header_info(w, header.rom_sets_ptr);
    let sets = match m {
        Ok(sets) => Some(sets),
        Err(Refusal::Ended) => None,
        Err(_) => Some(OneRomMetadataHeader {
            rom_set_count: 0,
            rom_sets_ptr: 0,
        }),
    };
    SetsSource {
        metadata: Some(m.map(|_| ())),
        sets,
    }
}
