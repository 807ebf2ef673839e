// What of a request the library's calls take.
ghost use Rattle.std.specs.Prelude.{◌≡◌};

use crate::Request;
use crate::levels::Levels;
use types::SdrrCsSet;
use window::Settings;

/// The settings that a dump is opened with.
pub fn settings(request: Request) -> Settings
    ensures flash_base_value { result.flash_base ≡ request.settings.flash_base }
    ensures cs0_base_value { result.cs0_base ≡ request.settings.cs0_base }
    ensures info_offset_value { result.info_offset ≡ request.settings.info_offset }
{
    request.settings
}

// A line that is not named is low.
fn level(given: Option<bool>) -> Option<bool> {
    Some(given.unwrap_or(false))
}

pub fn cs_set(levels: Levels) -> SdrrCsSet {
    SdrrCsSet {
        cs1: level(levels.cs1),
        cs2: level(levels.cs2),
        cs3: level(levels.cs3),
        x1: level(levels.x1),
        x2: level(levels.x2),
    }
}
