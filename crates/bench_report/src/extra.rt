// Extra info.
use super::refused;
use bench_form::{Pin, Port, on_off};
use bench_out::Out;
use extra_info::{ExtraInfoItem, SdrrExtraInfo};
use std::fmt;
use std::fmt::Write;
use version::FirmwareVersion;

fn for_person(out: &mut Out, e: SdrrExtraInfo) -> fmt::Result {
    let usb_dfu = on_off(e.usb_dfu);
    let port = Port(e.usb_port);
    let vbus_pin = Pin(e.vbus_pin);
    let pio_default = match e.fire_pio_default {
        Some(is_on) => on_off(is_on),
        None => "not given",
    };
    let rtt = e.rtt_ptr;
    let runtime = e.runtime_info_ptr;
    write!(out, "Extra info         USB DFU {usb_dfu}, port {port}, ")?;
    writeln!(out, "VBUS pin {vbus_pin}, PIO default {pio_default},")?;
    writeln!(
        out,
        "                   RTT at {rtt:#010x}, runtime at {runtime:#010x}"
    )
}

fn for_script(out: &mut Out, e: SdrrExtraInfo) -> fmt::Result {
    let usb_dfu = e.usb_dfu as u8;
    let port = Port(e.usb_port);
    let vbus_pin = e.vbus_pin;
    let pio_default = match e.fire_pio_default {
        Some(false) => "0",
        Some(true) => "1",
        None => "not_given",
    };
    let rtt = e.rtt_ptr;
    let runtime = e.runtime_info_ptr;
    write!(
        out,
        "extra.number 0\nextra.usb_dfu {usb_dfu}\nextra.usb_port {port}\n"
    )?;
    write!(
        out,
        "extra.vbus_pin {vbus_pin}\nextra.pio_default {pio_default}\n"
    )?;
    write!(
        out,
        "extra.rtt {rtt:#010x}\nextra.runtime {runtime:#010x}\n"
    )
}

// Below 0.4 extra info is looked for where none can be: a person is told so.
pub(crate) fn lines(out: &mut Out, i: ExtraInfoItem, v: FirmwareVersion) -> fmt::Result {
    let e = i.extra_info;
    if i.number == 0 {
        return if out.is_script() {
            for_script(out, e)
        } else {
            for_person(out, e)
        };
    }
    refused(out, "Extra info", "extra", i.number)?;
    if version::below_0_4(v) && !out.is_script() {
        writeln!(
            out,
            "                   (there is none before firmware 0.4)"
        )?;
    }
    Ok(())
}
