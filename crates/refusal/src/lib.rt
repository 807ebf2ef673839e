// Why something is refused: the refusals that the library has, each with its number.
#![tactic(auto)]

ghost use Rattle.std.specs.Prelude.{◌≡◌};
ghost use Rattle.refusal.specs.Refusal.{number_of};

/// A refusal. Its discriminant is its number, which C, a report's rows and the bench show; 0 is none.
#[derive(Clone, Copy, Debug, PartialEq, Eq)]
pub enum Refusal {
    /// A base plus the image's length exceeds 2^32.
    PastWindow = 1,
    /// A read failed, or a slice is shorter than its record.
    Ended = 2,
    /// A pointer is below the base.
    BelowBase = 3,
    /// A row that is needed is not among those lent, or the type that is needed of it is above 33.
    BadRow = 4,
    /// The header does not start with SDRR.
    HeaderMagic = 10,
    /// The microcontroller line is none of those known.
    McuLine = 11,
    /// The storage code is none of those known.
    McuStorage = 12,
    /// The firmware is 0.7.0 or later.
    FirmwareVersion = 13,
    /// 1,024 bytes have no NUL.
    Unterminated = 20,
    /// What comes before the NUL is not UTF-8.
    NotUtf8 = 21,
    /// Metadata does not start with ONEROM_METADATA.
    MetadataMagic = 30,
    /// Metadata's version is not 1.
    MetadataVersion = 31,
    /// Metadata counts sets, and its pointer to them is 0.
    NoSetsPointer = 32,
    /// A set's serving is none of those known.
    Serve = 40,
    /// A set's multi-ROM state is none of those known.
    MultiRomState = 41,
    /// A ROM's type is none of those known.
    RomType = 42,
    /// One of a ROM's chip-select states is none of those known.
    CsState = 43,
    /// More sets than set rows are lent.
    ShortSetRows = 44,
    /// More ROMs than ROM rows are lent.
    ShortRomRows = 45,
    /// One of the pins' ports is none of those known.
    McuPort = 50,
    /// The record does not start with sdrr.
    RuntimeMagic = 60,
    /// Its size byte is under 20.
    RuntimeSize = 61,
    /// The address of its access count does not fit 32 bits.
    RamBase = 62,
    /// The pins are refused.
    NoPins = 70,
    /// No set is served.
    NoSets = 71,
    /// X1 or X2 is none of the sixteen pins.
    XPinOff = 72,
    /// X1 or X2 is a pin that has an address line.
    XPinTaken = 73,
    /// The set that governs has no ROM.
    NoRom = 74,
    /// Logical reads do not cover the type.
    UnsupportedType = 75,
    /// A control pin that the type uses is none of the sixteen.
    ControlPinOff = 76,
    /// The address is above the type's last.
    AboveMask = 77,
    /// The type is a 28C16.
    Rom28C16 = 78,
    /// A data pin is at 8 or above.
    DataPinOff = 79,
    /// There is no such set.
    NoSuchSet = 80,
    /// Offset plus length is above the set's size.
    PastSetSize = 81,
    /// The served count would pass 4,294,967,295.
    CountFull = 82,
    /// There is no such job.
    NoSuchJob = 83,
}

impl Refusal {
    /// The number.
    pub fn number(self) -> u8
        ensures { result ≡ number_of self }
    {
        self as u8
    }
}
