// The report as C and Rust hold it: numbers of their own widths, so that every value handed back is a report.
#![tactic(auto)]

ghost use Rattle.std.specs.Prelude.{◌≡◌};
ghost use Rattle.c_report.specs.Report.{bit, header_out, string_out, pio_number, extra_out, metadata_out, sets_out, pins_out, report_out};

use extra_info::ExtraInfoItem;
use header::SdrrInfoFields;
use metadata::MetadataItem;
use pins::PinsItem;
use sdrr_info::SdrrInfo;
use sets_item::SetsItem;
use text::Text;

#[repr(C)]
#[derive(Clone, Copy)]
pub struct OneromHeader {
    pub major: u16,
    pub minor: u16,
    pub patch: u16,
    pub build: u16,
    pub freq: u16,
    pub commit: [u8; 8],
    pub line: u8,
    pub storage: u8,
    pub overclock: u8,
    pub swd_enabled: u8,
    pub preload_image_to_ram: u8,
    pub bootloader_capable: u8,
    pub status_led_enabled: u8,
    pub boot_logging_enabled: u8,
    pub mco_enabled: u8,
    pub count_rom_access: u8,
    pub boot_config: [u8; 4],
}

#[repr(C)]
#[derive(Clone, Copy)]
pub struct OneromString {
    pub number: u8,
    pub offset: u32,
    pub length: u32,
    pub width: u32,
}

#[repr(C)]
#[derive(Clone, Copy)]
pub struct OneromExtraInfo {
    pub number: u8,
    pub usb_dfu: u8,
    pub usb_port: u8,
    pub vbus_pin: u8,
    pub fire_pio_default: u8,
    pub rtt_ptr: u32,
    pub runtime_info_ptr: u32,
}

#[repr(C)]
#[derive(Clone, Copy)]
pub struct OneromMetadata {
    pub looked_for: u8,
    pub number: u8,
}

#[repr(C)]
#[derive(Clone, Copy)]
pub struct OneromSets {
    pub number: u8,
    pub rom_set_count: u8,
    pub served: u32,
}

#[repr(C)]
#[derive(Clone, Copy)]
pub struct OneromPins {
    pub number: u8,
    pub data_port: u8,
    pub addr_port: u8,
    pub cs_port: u8,
    pub sel_port: u8,
    pub status_port: u8,
    pub rom_pins: u8,
    pub data: [u8; 8],
    pub addr: [u8; 16],
    pub cs1: u8,
    pub cs2: u8,
    pub cs3: u8,
    pub reserved2a: u8,
    pub reserved2b: u8,
    pub reserved2c: u8,
    pub x1: u8,
    pub x2: u8,
    pub ce: u8,
    pub oe: u8,
    pub x_jumper_pull: u8,
    pub swclk_sel: u8,
    pub swdio_sel: u8,
    pub sel0: u8,
    pub sel1: u8,
    pub sel2: u8,
    pub sel3: u8,
    pub sel4: u8,
    pub sel5: u8,
    pub sel6: u8,
    pub sel_jumper_pull: u8,
    pub status: u8,
    pub extended: u8,
    pub data2: [u8; 8],
    pub addr2: [u8; 16],
}

#[repr(C)]
#[derive(Clone, Copy)]
pub struct OneromReport {
    pub header: OneromHeader,
    pub build_date: OneromString,
    pub hw_rev: OneromString,
    pub extra_info: OneromExtraInfo,
    pub metadata: OneromMetadata,
    pub rom_sets: OneromSets,
    pub pins: OneromPins,
}

fn bit_of(b: bool) -> u8
    ensures { result ≡ bit b }
{
    if b { 1 } else { 0 }
}

#[tactic(auto, unfolding(crate::specs::Report::header_out))]
fn header_out(f: SdrrInfoFields) -> OneromHeader
    ensures { result ≡ header_out f }
{
    let version = f.version;
    let line = f.stm_line;
    let storage = f.stm_storage;
    let commit = f.commit;
    let boot_config = f.boot_config;
    OneromHeader {
        major: version.major,
        minor: version.minor,
        patch: version.patch,
        build: version.build,
        freq: f.freq,
        commit,
        line: type_numbers::line_number(line),
        storage: type_numbers::storage_number(storage),
        overclock: bit_of(f.overclock),
        swd_enabled: bit_of(f.swd_enabled),
        preload_image_to_ram: bit_of(f.preload_image_to_ram),
        bootloader_capable: bit_of(f.bootloader_capable),
        status_led_enabled: bit_of(f.status_led_enabled),
        boot_logging_enabled: bit_of(f.boot_logging_enabled),
        mco_enabled: bit_of(f.mco_enabled),
        count_rom_access: bit_of(f.count_rom_access),
        boot_config,
    }
}

#[tactic(auto, unfolding(crate::specs::Report::string_out))]
fn string_out(t: Text) -> OneromString
    ensures { result ≡ string_out t }
{
    OneromString {
        number: t.number,
        offset: t.offset,
        length: t.length,
        width: t.width,
    }
}

#[tactic(auto, unfolding(crate::specs::Report::pio_number))]
fn pio_number(p: Option<bool>) -> u8
    ensures { result ≡ pio_number p }
{
    match p {
        None => 2,
        Some(on) => bit_of(on),
    }
}

#[tactic(auto, unfolding(crate::specs::Report::extra_out))]
fn extra_out(i: ExtraInfoItem) -> OneromExtraInfo
    ensures { result ≡ extra_out i }
{
    let e = i.extra_info;
    let usb_port = e.usb_port;
    let pio = e.fire_pio_default;
    OneromExtraInfo {
        number: i.number,
        usb_dfu: bit_of(e.usb_dfu),
        usb_port: type_numbers::port_number(usb_port),
        vbus_pin: e.vbus_pin,
        fire_pio_default: pio_number(pio),
        rtt_ptr: e.rtt_ptr,
        runtime_info_ptr: e.runtime_info_ptr,
    }
}

#[tactic(auto, unfolding(crate::specs::Report::metadata_out))]
fn metadata_out(m: MetadataItem) -> OneromMetadata
    ensures { result ≡ metadata_out m }
{
    match m {
        MetadataItem::NotLookedFor => OneromMetadata {
            looked_for: 0,
            number: 0,
        },
        MetadataItem::Looked(number) => OneromMetadata {
            looked_for: 1,
            number,
        },
    }
}

#[tactic(auto, unfolding(crate::specs::Report::sets_out))]
fn sets_out(s: SetsItem) -> OneromSets
    ensures { result ≡ sets_out s }
{
    OneromSets {
        number: s.number,
        rom_set_count: s.rom_set_count,
        served: s.served,
    }
}

#[tactic(auto, unfolding(crate::specs::Report::pins_out))]
fn pins_out(i: PinsItem) -> OneromPins
    ensures { result ≡ pins_out i }
{
    let p = i.pins;
    let data_port = p.data_port;
    let addr_port = p.addr_port;
    let cs_port = p.cs_port;
    let sel_port = p.sel_port;
    let status_port = p.status_port;
    let data = p.data;
    let addr = p.addr;
    let data2 = p.data2;
    let addr2 = p.addr2;
    OneromPins {
        number: i.number,
        data_port: type_numbers::port_number(data_port),
        addr_port: type_numbers::port_number(addr_port),
        cs_port: type_numbers::port_number(cs_port),
        sel_port: type_numbers::port_number(sel_port),
        status_port: type_numbers::port_number(status_port),
        rom_pins: p.rom_pins,
        data,
        addr,
        cs1: p.cs1,
        cs2: p.cs2,
        cs3: p.cs3,
        reserved2a: p.reserved2a,
        reserved2b: p.reserved2b,
        reserved2c: p.reserved2c,
        x1: p.x1,
        x2: p.x2,
        ce: p.ce,
        oe: p.oe,
        x_jumper_pull: p.x_jumper_pull,
        swclk_sel: p.swclk_sel,
        swdio_sel: p.swdio_sel,
        sel0: p.sel0,
        sel1: p.sel1,
        sel2: p.sel2,
        sel3: p.sel3,
        sel4: p.sel4,
        sel5: p.sel5,
        sel6: p.sel6,
        sel_jumper_pull: p.sel_jumper_pull,
        status: p.status,
        extended: p.extended,
        data2,
        addr2,
    }
}

#[tactic(auto, unfolding(crate::specs::Report::report_out))]
pub fn report_out(info: SdrrInfo) -> OneromReport
    ensures { result ≡ report_out info }
{
    let fields = info.fields;
    let build_date = info.build_date;
    let hw_rev = info.hw_rev;
    let extra_info = info.extra_info;
    let metadata = info.metadata;
    let rom_sets = info.rom_sets;
    let pins = info.pins;
    OneromReport {
        header: header_out(fields),
        build_date: string_out(build_date),
        hw_rev: string_out(hw_rev),
        extra_info: extra_out(extra_info),
        metadata: metadata_out(metadata),
        rom_sets: sets_out(rom_sets),
        pins: pins_out(pins),
    }
}
