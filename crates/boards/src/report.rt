// The report as words: the header's fields, build date, revision, extra info, metadata, sets, pins. A refused item's words are in it too.
use super::{show, words};
use extra_info::ExtraInfoItem;
use header::SdrrInfoFields;
use metadata::MetadataItem;
use pins::{PinsItem, SdrrPins};
use sdrr_info::SdrrInfo;
use sets_item::SetsItem;
use std::io;
use text::Text;
use types::SdrrMcuPort;
use version::FirmwareVersion;

// How many words there are; the fields stand first.
pub(crate) const WORDS: usize = 124;

pub(crate) const FIELD_WORDS: usize = 27;

// Where each item starts, and how many words it has.
pub(crate) const BUILD_DATE: usize = 27;

pub(crate) const HW_REV: usize = 31;

pub(crate) const TEXT_WORDS: usize = 4;

pub(crate) const EXTRA_INFO: usize = 35;

pub(crate) const EXTRA_INFO_WORDS: usize = 7;

pub(crate) const METADATA: usize = 42;

pub(crate) const SETS: usize = 43;

pub(crate) const SETS_WORDS: usize = 3;

pub(crate) const PINS: usize = 46;

pub(crate) const PINS_WORDS: usize = 78;

// A word, where there is room; and the index behind it.
fn push(words: &mut [u32], at: usize, n: u32) -> usize {
    if words.len() <= at {
        return at;
    }
    words[at] = n;
    at + 1
}

fn flag(words: &mut [u32], at: usize, b: bool) -> usize {
    push(words, at, if b { 1 } else { 0 })
}

fn byte(words: &mut [u32], at: usize, b: u8) -> usize {
    push(words, at, b as u32)
}

fn half(words: &mut [u32], at: usize, n: u16) -> usize {
    push(words, at, n as u32)
}

fn bytes(words: &mut [u32], at: usize, s: &[u8]) -> usize {
    let mut end = at;
    for b in s {
        end = byte(words, end, *b);
    }
    end
}

fn four(words: &mut [u32], at: usize, a: [u8; 4]) -> usize {
    bytes(words, at, &a)
}

fn eight(words: &mut [u32], at: usize, a: [u8; 8]) -> usize {
    bytes(words, at, &a)
}

fn sixteen(words: &mut [u32], at: usize, a: [u8; 16]) -> usize {
    bytes(words, at, &a)
}

fn port(words: &mut [u32], at: usize, p: SdrrMcuPort) -> usize {
    byte(words, at, type_numbers::port_number(p))
}

fn pio_default(p: Option<bool>) -> u32 {
    match p {
        None => 2,
        Some(b) => { if b { 1 } else { 0 } }
    }
}

fn metadata(m: MetadataItem) -> u32 {
    match m {
        MetadataItem::NotLookedFor => 256,
        MetadataItem::Looked(n) => n as u32,
    }
}

fn version(words: &mut [u32], from: usize, v: FirmwareVersion) -> usize {
    let a = half(words, from, v.major);
    let b = half(words, a, v.minor);
    let c = half(words, b, v.patch);
    half(words, c, v.build)
}

fn flags(words: &mut [u32], from: usize, f: SdrrInfoFields) -> usize {
    let a = flag(words, from, f.overclock);
    let b = flag(words, a, f.swd_enabled);
    let c = flag(words, b, f.preload_image_to_ram);
    let d = flag(words, c, f.bootloader_capable);
    let e = flag(words, d, f.status_led_enabled);
    let g = flag(words, e, f.boot_logging_enabled);
    let h = flag(words, g, f.mco_enabled);
    flag(words, h, f.count_rom_access)
}

fn fields(words: &mut [u32], from: usize, f: SdrrInfoFields) -> usize {
    let a = version(words, from, f.version);
    let commit = f.commit;
    let b = eight(words, a, commit);
    let l = f.stm_line;
    let c = byte(words, b, type_numbers::line_number(l));
    let s = f.stm_storage;
    let d = byte(words, c, type_numbers::storage_number(s));
    let e = half(words, d, f.freq);
    let g = flags(words, e, f);
    let boot = f.boot_config;
    four(words, g, boot)
}

fn text(words: &mut [u32], from: usize, t: Text) -> usize {
    let a = byte(words, from, t.number);
    let b = push(words, a, t.offset);
    let c = push(words, b, t.length);
    push(words, c, t.width)
}

fn extra_info(words: &mut [u32], from: usize, i: ExtraInfoItem) -> usize {
    let a = byte(words, from, i.number);
    let x = i.extra_info;
    let b = push(words, a, x.rtt_ptr);
    let c = flag(words, b, x.usb_dfu);
    let usb = x.usb_port;
    let d = port(words, c, usb);
    let e = byte(words, d, x.vbus_pin);
    let pio = x.fire_pio_default;
    let g = push(words, e, pio_default(pio));
    push(words, g, x.runtime_info_ptr)
}

fn sets(words: &mut [u32], from: usize, s: SetsItem) -> usize {
    let a = byte(words, from, s.number);
    let b = byte(words, a, s.rom_set_count);
    push(words, b, s.served)
}

fn ports(words: &mut [u32], from: usize, p: SdrrPins) -> usize {
    let data = p.data_port;
    let a = port(words, from, data);
    let addr = p.addr_port;
    let b = port(words, a, addr);
    let cs = p.cs_port;
    let c = port(words, b, cs);
    let sel = p.sel_port;
    let d = port(words, c, sel);
    let status = p.status_port;
    let e = port(words, d, status);
    byte(words, e, p.rom_pins)
}

fn controls(words: &mut [u32], from: usize, p: SdrrPins) -> usize {
    let a = byte(words, from, p.cs1);
    let b = byte(words, a, p.cs2);
    let c = byte(words, b, p.cs3);
    let d = byte(words, c, p.reserved2a);
    let e = byte(words, d, p.reserved2b);
    byte(words, e, p.reserved2c)
}

fn lines(words: &mut [u32], from: usize, p: SdrrPins) -> usize {
    let a = byte(words, from, p.x1);
    let b = byte(words, a, p.x2);
    let c = byte(words, b, p.ce);
    let d = byte(words, c, p.oe);
    let e = byte(words, d, p.x_jumper_pull);
    let f = byte(words, e, p.swclk_sel);
    byte(words, f, p.swdio_sel)
}

fn selects(words: &mut [u32], from: usize, p: SdrrPins) -> usize {
    let a = byte(words, from, p.sel0);
    let b = byte(words, a, p.sel1);
    let c = byte(words, b, p.sel2);
    let d = byte(words, c, p.sel3);
    let e = byte(words, d, p.sel4);
    let f = byte(words, e, p.sel5);
    byte(words, f, p.sel6)
}

fn status(words: &mut [u32], from: usize, p: SdrrPins) -> usize {
    let a = byte(words, from, p.sel_jumper_pull);
    let b = byte(words, a, p.status);
    byte(words, b, p.extended)
}

fn front(words: &mut [u32], from: usize, p: SdrrPins) -> usize {
    let a = ports(words, from, p);
    let data = p.data;
    let b = eight(words, a, data);
    let addr = p.addr;
    let c = sixteen(words, b, addr);
    controls(words, c, p)
}

fn back(words: &mut [u32], from: usize, p: SdrrPins) -> usize {
    let a = lines(words, from, p);
    let b = selects(words, a, p);
    let c = status(words, b, p);
    let data2 = p.data2;
    let d = eight(words, c, data2);
    let addr2 = p.addr2;
    sixteen(words, d, addr2)
}

fn pins(words: &mut [u32], from: usize, i: PinsItem) -> usize {
    let a = byte(words, from, i.number);
    let p = i.pins;
    let b = front(words, a, p);
    back(words, b, p)
}

fn put(words: &mut [u32], r: SdrrInfo) {
    let f = r.fields;
    let a = fields(words, 0, f);
    let date = r.build_date;
    let b = text(words, a, date);
    let rev = r.hw_rev;
    let c = text(words, b, rev);
    let extra = r.extra_info;
    let d = extra_info(words, c, extra);
    let m = r.metadata;
    let e = push(words, d, metadata(m));
    let s = r.rom_sets;
    let g = sets(words, e, s);
    let p = r.pins;
    pins(words, g, p);
}

pub(crate) fn words_of(r: SdrrInfo) -> [u32; WORDS] {
    let mut words = [0u32; WORDS];
    put(&mut words, r);
    words
}

pub(crate) fn at(report: &[u32; WORDS], i: usize) -> u32 {
    words::at(report, i)
}

pub(crate) fn sum(report: &[u32; WORDS]) -> u32 {
    words::sum(report)
}

pub(crate) fn same(a: &[u32; WORDS], b: &[u32; WORDS], from: usize, n: usize) -> bool {
    words::same(a, b, from, n)
}

fn show_part(rt: &impl Print, report: &[u32; WORDS], from: usize, n: usize) -> io::Result<()> {
    show::words(rt, words::part(report, from, n))
}

// An item's words; of a refused one its number alone.
fn show_item(rt: &impl Print, report: &[u32; WORDS], from: usize, n: usize) -> io::Result<()> {
    if at(report, from) != 0 {
        show_part(rt, report, from, 1)
    } else {
        show_part(rt, report, from, n)
    }
}

// The sum of all words, and the words of the items that are not refused.
pub(crate) fn show(rt: &impl Print, report: &[u32; WORDS]) -> io::Result<()> {
    show::next(rt, sum(report))?;
    show_part(rt, report, 0, EXTRA_INFO)?;
    show_item(rt, report, EXTRA_INFO, EXTRA_INFO_WORDS)?;
    show_part(rt, report, METADATA, 1)?;
    show_part(rt, report, SETS, SETS_WORDS)?;
    show_item(rt, report, PINS, PINS_WORDS)
}
