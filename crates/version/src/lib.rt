// The firmware version: its order, and the versions at which something changes.
#![tactic(auto)]

ghost use Rattle.std.specs.Prelude.{◌≡◌};
ghost use Rattle.version.specs.Version.{before, below04, from050, from051, from060, from070};

// The order is by major, then minor, then patch, then build, as the fields stand.
#[derive(Clone, Copy, Debug, PartialEq, Eq, PartialOrd, Ord)]
pub struct FirmwareVersion {
    pub major: u16,
    pub minor: u16,
    pub patch: u16,
    pub build: u16,
}

// The releases at which something changes: build 0.
pub const V0_4_0: FirmwareVersion = FirmwareVersion {
    major: 0,
    minor: 4,
    patch: 0,
    build: 0,
};

pub const V0_5_0: FirmwareVersion = FirmwareVersion {
    major: 0,
    minor: 5,
    patch: 0,
    build: 0,
};

pub const V0_5_1: FirmwareVersion = FirmwareVersion {
    major: 0,
    minor: 5,
    patch: 1,
    build: 0,
};

pub const V0_6_0: FirmwareVersion = FirmwareVersion {
    major: 0,
    minor: 6,
    patch: 0,
    build: 0,
};

pub const V0_7_0: FirmwareVersion = FirmwareVersion {
    major: 0,
    minor: 7,
    patch: 0,
    build: 0,
};

// Whether v comes before w.
#[tactic(auto, using(crate::specs::Laws::lt_is_before))]
pub fn is_before(v: FirmwareVersion, w: FirmwareVersion) -> bool
    ensures { result ≡ before v w }
{
    v < w
}

// Below 0.4 there is no extra pointer.
pub fn below_0_4(v: FirmwareVersion) -> bool
    ensures { result ≡ below04 v }
{
    is_before(v, V0_4_0)
}

// Metadata is looked for from 0.5.0.
#[tactic(auto, using(crate::specs::Laws::ge_is_at_or_past))]
pub fn from_0_5_0(v: FirmwareVersion) -> bool
    ensures { result ≡ from050 v }
{
    v >= V0_5_0
}

// ROM infos have filenames from 0.5.1.
#[tactic(auto, using(crate::specs::Laws::ge_is_at_or_past))]
pub fn from_0_5_1(v: FirmwareVersion) -> bool
    ensures { result ≡ from051 v }
{
    v >= V0_5_1
}

// From 0.6.0 the PIO default flag is given, and the stride is longer.
#[tactic(auto, using(crate::specs::Laws::ge_is_at_or_past))]
pub fn from_0_6_0(v: FirmwareVersion) -> bool
    ensures { result ≡ from060 v }
{
    v >= V0_6_0
}

// Firmware from 0.7.0 is refused.
#[tactic(auto, using(crate::specs::Laws::ge_is_at_or_past))]
pub fn from_0_7_0(v: FirmwareVersion) -> bool
    ensures { result ≡ from070 v }
{
    v >= V0_7_0
}
