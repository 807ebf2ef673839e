// Options, by their words.
ghost use Rattle.std.specs.Prelude.{◌≡◌};
ghost use Rattle.bench_args.specs.Setting.{with_setting};

use window::Settings;

// A setting, whose number follows its option.
#[derive(Clone, Copy, Debug, PartialEq, Eq)]
pub(crate) enum Setting {
    FlashBase,
    Cs0Base,
    InfoOffset,
}

impl Setting {
    pub(crate) fn named(word: &[u8]) -> Option<Setting> {
        match word {
            b"--flash-base" => Some(Setting::FlashBase),
            b"--cs0-base" => Some(Setting::Cs0Base),
            b"--info-offset" => Some(Setting::InfoOffset),
            _ => None,
        }
    }

    // The settings with this one given.
    pub(crate) fn given(self, settings: Settings, value: u32) -> Settings
        ensures { result ≡ with_setting settings self value }
    {
        let mut given = settings;
        match self {
            Setting::FlashBase => given.flash_base = value,
            Setting::Cs0Base => given.cs0_base = value,
            Setting::InfoOffset => given.info_offset = value,
        }
        given
    }
}

// An option that a value follows: a number, or the name of a file.
#[derive(Clone, Copy, Debug, PartialEq, Eq)]
pub(crate) enum Valued {
    Setting(Setting),
    Sample,
    Link,
}

impl Valued {
    fn named(word: &[u8]) -> Option<Valued> {
        match word {
            b"--sample" => Some(Valued::Sample),
            b"--link" => Some(Valued::Link),
            _ => Setting::named(word).map(Valued::Setting),
        }
    }
}

// An option without a value.
#[derive(Clone, Copy, Debug, PartialEq, Eq)]
pub(crate) enum Flag {
    Machine,
    Status,
    BySet0,
    Version,
    Help,
    End,
}

impl Flag {
    fn named(word: &[u8]) -> Option<Flag> {
        match word {
            b"--machine" => Some(Flag::Machine),
            b"--status" => Some(Flag::Status),
            b"--by-set-0" => Some(Flag::BySet0),
            b"--version" => Some(Flag::Version),
            b"--help" | b"-h" => Some(Flag::Help),
            b"--" => Some(Flag::End),
            _ => None,
        }
    }
}

#[derive(Clone, Copy, Debug, PartialEq, Eq)]
pub(crate) enum Choice {
    Flag(Flag),
    Valued(Valued),
}

impl Choice {
    pub(crate) fn named(word: &[u8]) -> Option<Choice> {
        match Flag::named(word) {
            Some(flag) => Some(Choice::Flag(flag)),
            None => Valued::named(word).map(Choice::Valued),
        }
    }
}
