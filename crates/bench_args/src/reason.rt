// Why the command line is not understood.
ghost use Rattle.std.specs.Prelude.{◌≡◌};
ghost use Rattle.bench_args.specs.Reason.{number_of};

/// A reason. Its discriminant is its number, which a script is shown.
#[derive(Clone, Copy, Debug, PartialEq, Eq)]
pub enum Reason {
    /// An argument is too long.
    TooLong = 100,
    /// There is no such option.
    NoSuchOption = 101,
    /// An option's value is missing.
    NoValue = 102,
    /// There is no such command.
    NoSuchCommand = 103,
    /// A command's SET is missing, or its ADDRESS.
    NoSet = 104,
    /// There is one argument too many.
    TooMany = 105,
    /// It is not a number.
    NotANumber = 106,
    /// It is not LEVELS.
    NotLevels = 107,
    /// A command has no FILE in front.
    NoFile = 116,
}

impl Reason {
    /// The number.
    pub fn number(self) -> u8
        ensures { result ≡ number_of self }
    {
        self as u8
    }
}

/// A refusal, and the argument that it is about; one that is too long is about none that can be shown.
#[derive(Clone, Copy, Debug, PartialEq, Eq)]
pub struct Refused {
    pub reason: Reason,
    pub about: Option<usize>,
}

impl Refused {
    pub(crate) fn about(at: usize, reason: Reason) -> Refused {
        Refused {
            reason,
            about: Some(at),
        }
    }
}
