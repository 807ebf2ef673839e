// The byte at a logical address by the set's own ROMs, on one count: mangling goes by the named set, not by set 0. Goes by the report and rows as
// lent. Over it, with a count for each job, job_reads.
#![tactic(auto)]

ghost use Rattle.std.specs.Prelude.{◌≡◌};
ghost use Rattle.info.specs.Lent.{lent_by};
ghost use Rattle.info.specs.Reads.{own, rom_read};
ghost use Rattle.byte_reads.specs.Calls.{byte_of};
ghost use Rattle.byte_reads.specs.Code.{shown_from};

use board::Board;
use byte_reads::ByteRead;
use types::SdrrCsSet;

// A raw byte that was read, demangled: 79 counts nothing. 70 is not asked again, since a byte that was read had accepted pins. byte_reads' own
// function is left to the old read: so in C's archive each has one caller, to which the compiler joins it.
#[tactic(auto, using(demangle::specs::Refused::refused), unfolding(byte_reads::specs::Code::shown_from))]
pub fn shown_own(data: [u8; 8], raw: ByteRead, count: u32) -> ByteRead
    ensures { result ≡ shown_from 0 «data» raw count }
{
    if raw.number != 0 {
        return raw;
    }
    match demangle::demangle_core(data, raw.byte) {
        Ok(byte) => ByteRead {
            number: 0,
            byte,
            count: raw.count,
        },
        Err(refusal) => ByteRead {
            number: refusal.number(),
            byte: 0,
            count,
        },
    }
}

pub fn byte_own_on_count(
    image: &[u8],
    board: Board,
    set_rows: &[u32],
    rom_rows: &[u32],
    set: u32,
    address: u32,
    cs_set: SdrrCsSet,
    count: u32,
) -> ByteRead
    ensures { result ≡ byte_of (rom_read board.flash_base board.cs0_base (lent_by board set_rows.now rom_rows.now) count (own set address cs_set) image.now) }
{
    let pins = board.pins;
    let served = board.served;
    let m = info::mangle_own(pins, served, set_rows, rom_rows, set, address, cs_set);
    let line = board.line;
    let raw = byte_reads::byte_at(
        image,
        board.flash_base,
        board.cs0_base,
        line,
        served,
        set_rows,
        set,
        m,
        count,
    );
    let data = pins.data;
    shown_own(data, raw, count)
}
