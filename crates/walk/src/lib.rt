// The walk over ROM sets and ROM infos: its definitions and theorems, and what both of its passes, judge_walk and write_rows, go by.
#![tactic(auto)]

ghost use Rattle.std.specs.Prelude.{◌≡◌};
ghost use Rattle.version.specs.Version.{from060};
ghost use Rattle.header.specs.Header.{has_filenames};

use header::SdrrInfoFields;
use window::Window;

// What the walk goes by: the image; whether ROM infos have filenames; and whether a set whose extra byte is 1 has the longer stride.
#[derive(Clone, Copy)]
pub struct WalkBy<'a> {
    pub window: Window<'a>,
    pub filenames: bool,
    pub long: bool,
}

impl<'a> WalkBy<'a> {
    // What the header's fields have the walk go by.
    pub fn new(window: Window<'a>, fields: SdrrInfoFields) -> WalkBy<'a>
        ensures window { result.window ≡ window.entry }
        ensures filenames { result.filenames ≡ has_filenames fields }
        ensures long { result.long ≡ from060 fields.version }
    {
        WalkBy {
            window,
            filenames: header::filenames_enabled(fields),
            long: version::from_0_6_0(fields.version),
        }
    }
}
