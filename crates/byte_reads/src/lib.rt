// The byte reads on one count (info.rs `read_rom_byte_raw`, `read_rom_byte_demangled`; over them, with a count for each job, job_reads). They go
// by the report and rows as lent.
#![tactic(auto)]

ghost use Rattle.std.specs.Prelude.{◌≡◌, true, false};
ghost use Rattle.refusal.specs.Refusal.{valued};
ghost use Rattle.info.specs.Lent.{lent_by};
ghost use Rattle.info.specs.Reads.{byte, rom_read};
ghost use Rattle.set_data.specs.Code.{set_data};
ghost use Rattle.byte_reads.specs.Calls.{byte_of};
ghost use Rattle.byte_reads.specs.Code.{no_byte, stored_byte, byte_at, physical_by, shown_from};

use board::{Board, BoardPins};
use info::SdrrAddress;
use refusal::Refusal;
use types::McuLine;
use window::Window;

// 0 and the byte, or the refusal's number and 0; and the served count afterwards.
#[derive(Clone, Copy)]
pub struct ByteRead {
    pub number: u8,
    pub byte: u8,
    pub count: u32,
}

fn no_byte(number: u8, count: u32) -> ByteRead
    ensures { result ≡ no_byte number count }
{
    ByteRead {
        number,
        byte: 0,
        count,
    }
}

// The byte at a mangled address of a set.
#[tactic(auto, using(demangle::specs::Refused::refused), unfolding(crate::specs::Code::stored_byte))]
fn stored_byte(
    w: Window,
    served: u32,
    set_rows: &[u32],
    set: u32,
    m: Result<u32, Refusal>,
    count: u32,
) -> ByteRead
    ensures { result ≡ stored_byte w.entry.image.now w.entry.base (set_data served set_rows.now set) (valued m) count }
{
    let offset = match m {
        Ok(offset) => offset,
        Err(refusal) => return no_byte(refusal.number(), count),
    };
    let bytes = match set_data::set_bytes(w, served, set_rows, set, offset, 1) {
        Ok(bytes) => bytes,
        Err(refusal) => return no_byte(refusal.number(), count),
    };
    if count == 4294967295 {
        return no_byte(82, count);
    }
    let byte = bytes[0];
    let count = count + 1;
    ByteRead {
        number: 0,
        byte,
        count,
    }
}

// Where an address leads in a set: a raw one skips mangling.
fn physical_address(
    pins: BoardPins,
    served: u32,
    set_rows: &[u32],
    rom_rows: &[u32],
    address: SdrrAddress,
) -> Result<u32, Refusal>
    ensures { valued result ≡ physical_by pins served set_rows.now rom_rows.now address }
{
    match address {
        SdrrAddress::Raw(offset) => Ok(offset),
        SdrrAddress::Logical(logical, cs_set) => {
            info::mangle_address(pins, served, set_rows, rom_rows, logical, cs_set)
        }
    }
}

// The byte at a mangled address of a set, by no more of a board than it takes: 1 before anything else.
#[tactic(auto, unfolding(crate::specs::Code::byte_at))]
pub fn byte_at(
    image: &[u8],
    flash_base: u32,
    cs0_base: u32,
    line: McuLine,
    served: u32,
    set_rows: &[u32],
    set: u32,
    m: Result<u32, Refusal>,
    count: u32,
) -> ByteRead
    ensures { result ≡ byte_at flash_base cs0_base line served set_rows.now set (valued m) count image.now }
{
    if window::beyond_window(image, flash_base, cs0_base) {
        return no_byte(1, count);
    }
    let base = window::base_after(flash_base, cs0_base, line);
    let w = Window { image, base };
    stored_byte(w, served, set_rows, set, m, count)
}

// The same of a mangled address as it is shown: its number, whichever it is, and its value.
#[tactic(auto, unfolding(crate::specs::Code::byte_at, crate::specs::Code::stored_byte))]
pub fn byte_at_number(
    image: &[u8],
    flash_base: u32,
    cs0_base: u32,
    line: McuLine,
    served: u32,
    set_rows: &[u32],
    set: u32,
    number: u8,
    value: u32,
    count: u32,
) -> ByteRead
    ensures { result ≡ byte_at flash_base cs0_base line served set_rows.now set (record { number = number; value = value }) count image.now }
{
    if number == 0 {
        let m = Ok(value);
        return byte_at(
            image, flash_base, cs0_base, line, served, set_rows, set, m, count,
        );
    }
    let is_beyond = window::beyond_window(image, flash_base, cs0_base);
    if is_beyond {
        return no_byte(1, count);
    }
    no_byte(number, count)
}

pub fn byte_raw_on_count(
    image: &[u8],
    board: Board,
    set_rows: &[u32],
    rom_rows: &[u32],
    set: u32,
    address: SdrrAddress,
    count: u32,
) -> ByteRead
    ensures { result ≡ byte_of (rom_read board.flash_base board.cs0_base (lent_by board set_rows.now rom_rows.now) count (byte set address false) image.now) }
{
    let pins = board.pins;
    let served = board.served;
    let m = physical_address(pins, served, set_rows, rom_rows, address);
    let line = board.line;
    byte_at(
        image,
        board.flash_base,
        board.cs0_base,
        line,
        served,
        set_rows,
        set,
        m,
        count,
    )
}

// A raw byte that was read, demangled: 70 and 79 count nothing.
#[tactic(auto, using(demangle::specs::Refused::refused), unfolding(crate::specs::Code::shown_from))]
pub fn shown_byte(pins_number: u8, data: [u8; 8], raw: ByteRead, count: u32) -> ByteRead
    ensures { result ≡ shown_from pins_number «data» raw count }
{
    if raw.number != 0 {
        return raw;
    }
    match info::demangle_by(pins_number, data, raw.byte) {
        Ok(byte) => ByteRead {
            number: 0,
            byte,
            count: raw.count,
        },
        Err(refusal) => no_byte(refusal.number(), count),
    }
}

pub fn byte_demangled_on_count(
    image: &[u8],
    board: Board,
    set_rows: &[u32],
    rom_rows: &[u32],
    set: u32,
    address: SdrrAddress,
    count: u32,
) -> ByteRead
    ensures { result ≡ byte_of (rom_read board.flash_base board.cs0_base (lent_by board set_rows.now rom_rows.now) count (byte set address true) image.now) }
{
    let raw = byte_raw_on_count(image, board, set_rows, rom_rows, set, address, count);
    let pins = board.pins;
    let data = pins.data;
    shown_byte(pins.number, data, raw, count)
}
