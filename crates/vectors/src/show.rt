// Answers as numbers on a line.
use extra_info::{ExtraInfoItem, SdrrExtraInfo};
use header::{SdrrInfoFields, SdrrInfoHeader};
use metadata::OneRomMetadataHeader;
use pins::{PinsItem, SdrrPins};
use refusal::Refusal;
use std::io;
use text::Text;
use types::SdrrMcuPort;
use version::FirmwareVersion;

// The line's first number.
pub(crate) fn first(rt: &impl Print, n: u32) -> io::Result<()> {
    print!(rt; "{n}")
}

pub(crate) fn end(rt: &impl Print) -> io::Result<()> {
    println!(rt)
}

fn next(rt: &impl Print, n: u32) -> io::Result<()> {
    print!(rt; " {n}")
}

fn flag(rt: &impl Print, b: bool) -> io::Result<()> {
    next(rt, if b { 1 } else { 0 })
}

fn byte(rt: &impl Print, b: u8) -> io::Result<()> {
    next(rt, b as u32)
}

pub(crate) fn words(rt: &impl Print, words: &[u32; 25]) -> io::Result<()> {
    for word in words {
        next(rt, *word)?;
    }
    Ok(())
}

pub(crate) fn two(rt: &impl Print, a: u32, b: u32) -> io::Result<()> {
    first(rt, a)?;
    next(rt, b)
}

// Between two answers of a line.
pub(crate) fn gap(rt: &impl Print) -> io::Result<()> {
    print!(rt; " ")
}

pub(crate) fn four(rt: &impl Print, a: u32, b: u32, c: u32, d: u32) -> io::Result<()> {
    two(rt, a, b)?;
    next(rt, c)?;
    next(rt, d)
}

pub(crate) fn text(rt: &impl Print, t: Text) -> io::Result<()> {
    four(rt, t.number as u32, t.offset, t.length, t.width)
}

// A refusal's number, and a zero for each value.
fn refused(rt: &impl Print, refusal: Refusal, values: u32) -> io::Result<()> {
    first(rt, refusal.number() as u32)?;
    for _ in 0..values {
        next(rt, 0)?;
    }
    Ok(())
}

pub(crate) fn metadata(
    rt: &impl Print,
    r: Result<OneRomMetadataHeader, Refusal>,
) -> io::Result<()> {
    match r {
        Ok(m) => {
            first(rt, 0)?;
            byte(rt, m.rom_set_count)?;
            next(rt, m.rom_sets_ptr)
        }
        Err(refusal) => refused(rt, refusal, 2),
    }
}

fn port(rt: &impl Print, p: SdrrMcuPort) -> io::Result<()> {
    byte(rt, type_numbers::port_number(p))
}

fn pio_default(rt: &impl Print, p: Option<bool>) -> io::Result<()> {
    match p {
        None => next(rt, 2),
        Some(b) => flag(rt, b),
    }
}

pub(crate) fn extra_info(rt: &impl Print, i: ExtraInfoItem) -> io::Result<()> {
    first(rt, i.number as u32)?;
    let e = i.extra_info;
    next(rt, e.rtt_ptr)?;
    flag(rt, e.usb_dfu)?;
    let usb = e.usb_port;
    port(rt, usb)?;
    byte(rt, e.vbus_pin)?;
    let pio = e.fire_pio_default;
    pio_default(rt, pio)?;
    next(rt, e.runtime_info_ptr)
}

fn eight(rt: &impl Print, a: [u8; 8]) -> io::Result<()> {
    for b in &a {
        byte(rt, *b)?;
    }
    Ok(())
}

fn sixteen(rt: &impl Print, a: [u8; 16]) -> io::Result<()> {
    for b in &a {
        byte(rt, *b)?;
    }
    Ok(())
}

fn version(rt: &impl Print, v: FirmwareVersion) -> io::Result<()> {
    next(rt, v.major as u32)?;
    next(rt, v.minor as u32)?;
    next(rt, v.patch as u32)?;
    next(rt, v.build as u32)
}

fn flags(rt: &impl Print, f: SdrrInfoFields) -> io::Result<()> {
    flag(rt, f.overclock)?;
    flag(rt, f.swd_enabled)?;
    flag(rt, f.preload_image_to_ram)?;
    flag(rt, f.bootloader_capable)?;
    flag(rt, f.status_led_enabled)?;
    flag(rt, f.boot_logging_enabled)?;
    flag(rt, f.mco_enabled)?;
    flag(rt, f.count_rom_access)
}

fn fields(rt: &impl Print, f: SdrrInfoFields) -> io::Result<()> {
    let v = f.version;
    version(rt, v)?;
    let commit = f.commit;
    eight(rt, commit)?;
    let l = f.stm_line;
    byte(rt, type_numbers::line_number(l))?;
    let s = f.stm_storage;
    byte(rt, type_numbers::storage_number(s))?;
    next(rt, f.freq as u32)?;
    flags(rt, f)?;
    let boot = f.boot_config;
    byte(rt, boot[0])?;
    byte(rt, boot[1])?;
    byte(rt, boot[2])?;
    byte(rt, boot[3])
}

pub(crate) fn header(rt: &impl Print, r: Result<SdrrInfoHeader, Refusal>) -> io::Result<()> {
    match r {
        Ok(h) => {
            first(rt, 0)?;
            fields(rt, h.fields)?;
            next(rt, h.build_date_ptr)?;
            next(rt, h.hw_rev_ptr)?;
            byte(rt, h.rom_set_count)?;
            next(rt, h.rom_sets_ptr)?;
            next(rt, h.pins_ptr)?;
            next(rt, h.extra_ptr)
        }
        Err(refusal) => refused(rt, refusal, 33),
    }
}

fn ports(rt: &impl Print, p: SdrrPins) -> io::Result<()> {
    let a = p.data_port;
    port(rt, a)?;
    let b = p.addr_port;
    port(rt, b)?;
    let c = p.cs_port;
    port(rt, c)?;
    let d = p.sel_port;
    port(rt, d)?;
    let e = p.status_port;
    port(rt, e)?;
    byte(rt, p.rom_pins)
}

fn lines_of(rt: &impl Print, p: SdrrPins) -> io::Result<()> {
    byte(rt, p.cs1)?;
    byte(rt, p.cs2)?;
    byte(rt, p.cs3)?;
    byte(rt, p.reserved2a)?;
    byte(rt, p.reserved2b)?;
    byte(rt, p.reserved2c)?;
    byte(rt, p.x1)?;
    byte(rt, p.x2)?;
    byte(rt, p.ce)?;
    byte(rt, p.oe)?;
    byte(rt, p.x_jumper_pull)
}

fn selects(rt: &impl Print, p: SdrrPins) -> io::Result<()> {
    byte(rt, p.swclk_sel)?;
    byte(rt, p.swdio_sel)?;
    byte(rt, p.sel0)?;
    byte(rt, p.sel1)?;
    byte(rt, p.sel2)?;
    byte(rt, p.sel3)?;
    byte(rt, p.sel4)?;
    byte(rt, p.sel5)?;
    byte(rt, p.sel6)?;
    byte(rt, p.sel_jumper_pull)?;
    byte(rt, p.status)?;
    byte(rt, p.extended)
}

pub(crate) fn pins(rt: &impl Print, i: PinsItem) -> io::Result<()> {
    first(rt, i.number as u32)?;
    let p = i.pins;
    ports(rt, p)?;
    let data = p.data;
    eight(rt, data)?;
    let addr = p.addr;
    sixteen(rt, addr)?;
    lines_of(rt, p)?;
    selects(rt, p)?;
    let data2 = p.data2;
    eight(rt, data2)?;
    let addr2 = p.addr2;
    sixteen(rt, addr2)
}
