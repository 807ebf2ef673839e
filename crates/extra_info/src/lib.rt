// Extra info (info.rs `SdrrExtraInfo`, parsing.rs `read_extra_info`).
#![tactic(auto)]

ghost use Rattle.std.specs.Prelude.{◌≡◌};
ghost use Rattle.prog.specs.Prog.{run};
ghost use Rattle.extra_info.specs.ExtraInfo.{pio_default_of, extra_info_fields, refused_extra_info, extra_info_item, extra_info_of, extra_info_p};

use refusal::Refusal;
use types::SdrrMcuPort;
use version::FirmwareVersion;
use window::Window;

const EXTRA_INFO_SIZE: usize = 256;

#[derive(Clone, Copy)]
pub struct SdrrExtraInfo {
    pub rtt_ptr: u32,
    pub usb_dfu: bool,
    pub usb_port: SdrrMcuPort,
    pub vbus_pin: u8,
    // Given from firmware 0.6.0 on.
    pub fire_pio_default: Option<bool>,
    pub runtime_info_ptr: u32,
}

// 0 and the record, or the number of its refusal with zeros and the runtime pointer FFFFFFFF.
#[derive(Clone, Copy)]
pub struct ExtraInfoItem {
    pub number: u8,
    pub extra_info: SdrrExtraInfo,
}

#[tactic(auto, unfolding(crate::specs::ExtraInfo::no_extra_info))]
pub fn refuse(number: u8) -> ExtraInfoItem
    ensures { result ≡ refused_extra_info number }
{
    ExtraInfoItem {
        number,
        extra_info: SdrrExtraInfo {
            rtt_ptr: 0,
            usb_dfu: false,
            usb_port: SdrrMcuPort::None,
            vbus_pin: 0,
            fire_pio_default: None,
            runtime_info_ptr: u32::MAX,
        },
    }
}

// The item of a result.
pub fn extra_info_item(r: Result<SdrrExtraInfo, Refusal>) -> ExtraInfoItem
    ensures { result ≡ extra_info_item r }
{
    match r {
        Ok(extra_info) => ExtraInfoItem {
            number: 0,
            extra_info,
        },
        Err(refusal) => refuse(refusal.number()),
    }
}

fn fire_pio_default(data: &[u8], version: FirmwareVersion) -> Option<bool>
    ensures { result ≡ pio_default_of version «data».now }
{
    if !version::from_0_6_0(version) {
        return None;
    }
    Some(le::flag_at(data, 7))
}

// The record's fields. A USB port that is none of the known ones becomes None.
#[tactic(auto, unfolding(crate::specs::ExtraInfo::extra_info_fields))]
fn read_fields(data: &[u8], version: FirmwareVersion) -> SdrrExtraInfo
    ensures { result ≡ extra_info_fields version «data».now }
{
    SdrrExtraInfo {
        rtt_ptr: le::u32_at(data, 0),
        usb_dfu: le::flag_at(data, 4),
        usb_port: types::port_of(le::u8_at(data, 5)),
        vbus_pin: le::u8_at(data, 6),
        fire_pio_default: fire_pio_default(data, version),
        runtime_info_ptr: le::u32_at(data, 8),
    }
}

// The record at the front of data.
#[tactic(auto, unfolding(crate::specs::ExtraInfo::extra_info_of))]
pub fn parse_extra_info(data: &[u8], version: FirmwareVersion) -> Result<SdrrExtraInfo, Refusal>
    ensures { extra_info_item result ≡ extra_info_of version «data».now }
{
    if data.len() < EXTRA_INFO_SIZE {
        return Err(Refusal::Ended);
    }
    Ok(read_fields(data, version))
}

// The record at a pointer, given to `parse_extra_info` as the image from there onward.
#[tactic(auto, using(crate::specs::Laws::extra_info_pointer_refused, crate::specs::Laws::extra_info_pointer_read))]
pub fn read_extra_info(
    w: Window,
    ptr: u32,
    version: FirmwareVersion,
) -> Result<SdrrExtraInfo, Refusal>
    ensures { extra_info_item result ≡ run (extra_info_p w.entry.base ptr version) w.entry.image.now }
{
    parse_extra_info(w.record_at(ptr, EXTRA_INFO_SIZE)?, version)
}
