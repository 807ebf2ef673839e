// The call that hands out the runtime record's words.
#![tactic(auto)]

ghost use Rattle.std.specs.Prelude.{◌≡◌};
ghost use Rattle.runtime_info.specs.Runtime.{runtime_of};
ghost use Rattle.runtime_info.specs.Words.{number_of, words_after};

use runtime_info::SdrrRuntimeInfo;

// The call for C and Rust: a refusal leaves the lent words.
pub fn runtime_call(record: &[u8], ram_base: u32, words: &mut [u32; 25]) -> u32
    ensures reply { result ≡ number_of (runtime_of «record».now ram_base) }
    ensures words { words.new ≡ words_after (runtime_of «record».now ram_base) words.old }
{
    match runtime_info::parse_ram(record, ram_base) {
        SdrrRuntimeInfo::Refused(number) => number as u32,
        SdrrRuntimeInfo::Parsed(head, fields) => {
            *words = runtime_words::runtime_words(head, fields);
            0
        }
    }
}
