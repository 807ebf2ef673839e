// The number of a case of the enums of types.rs, for those who show or store one.
#![tactic(auto)]

ghost use Rattle.std.specs.Prelude.{◌≡◌};
ghost use Rattle.type_numbers.specs.TypeNumbers.{line_number, storage_number, port_number};

use types::{McuLine, McuStorage, SdrrMcuPort};

pub fn line_number(line: McuLine) -> u8
    ensures { result ≡ line_number line }
{
    line as u8
}

pub fn storage_number(storage: McuStorage) -> u8
    ensures { result ≡ storage_number storage }
{
    storage as u8
}

pub fn port_number(port: SdrrMcuPort) -> u8
    ensures { result ≡ port_number port }
{
    port as u8
}
