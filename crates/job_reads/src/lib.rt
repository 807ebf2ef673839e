// The ROM reads, with a count for each job (info.rs `read_rom_set_data`, `read_rom_byte_raw`, `read_rom_byte_demangled`, and the byte by the set's
// own ROMs): 1, 83, then the read on the job's own count. They go by the report and rows as lent.
#![tactic(auto)]

ghost use Rattle.std.specs.Prelude.{◌≡◌, true, false, [], length};
ghost use Rattle.info.specs.Reads.{range, byte, own, buffer_left};
ghost use Rattle.data_reads.specs.Calls.{counted_of};
ghost use Rattle.byte_reads.specs.Calls.{byte_of};
ghost use Rattle.job_counts.specs.Counts.{no_job_number};
ghost use Rattle.jobs.specs.Jobs.{counts_left};
ghost use Rattle.job_reads.specs.Reads.{board_read};

use board::Board;
use byte_reads::ByteRead;
use data_reads::Counted;
use info::SdrrAddress;
use job_counts::JOBS;
use types::SdrrCsSet;

// The set's bytes from an offset on, as many as the buffer holds; a refused call changes no byte of it and no count.
#[tactic(auto, using(jobs::proofs::Laws::Tested::none_read, jobs::proofs::Laws::Tested::none_left, jobs::proofs::Laws::Tested::none_buffer, jobs::proofs::Laws::Tested::its_read, jobs::proofs::Laws::Tested::its_left))]
pub fn read_rom_set_data(
    image: &[u8],
    board: Board,
    set_rows: &[u32],
    set: u32,
    offset: u32,
    buffer: &mut [u8],
    job: u32,
    counts: &mut [u32; JOBS],
) -> Counted
    ensures reply { result ≡ counted_of (board_read board set_rows.now [] job counts.old (range set offset (length buffer.old)) image.now) }
    ensures buffer { buffer.new ≡ buffer_left (board_read board set_rows.now [] job counts.old (range set offset (length buffer.old)) image.now) buffer.old }
    ensures counts { counts.new ≡ counts_left job counts.old (board_read board set_rows.now [] job counts.old (range set offset (length buffer.old)) image.now) }
{
    if !job_counts::is_job(job) {
        let refused = job_counts::no_job(image, board.flash_base, board.cs0_base).number();
        return Counted {
            number: refused,
            count: 0,
        };
    }
    let mut count = job_counts::count_of(job, counts);
    let read = data_reads::data_on_count(image, board, set_rows, set, offset, buffer, &mut count);
    job_counts::leave(job, count, counts);
    data_reads::with_count(read, count)
}

fn no_byte(image: &[u8], board: Board) -> ByteRead
    ensures { result ≡ record { number = no_job_number board.flash_base board.cs0_base image.now; byte = 0; count = 0 } }
{
    let number = job_counts::no_job(image, board.flash_base, board.cs0_base).number();
    ByteRead {
        number,
        byte: 0,
        count: 0,
    }
}

pub fn read_rom_byte_raw(
    image: &[u8],
    board: Board,
    set_rows: &[u32],
    rom_rows: &[u32],
    set: u32,
    address: SdrrAddress,
    job: u32,
    counts: &mut [u32; JOBS],
) -> ByteRead
    ensures reply { result ≡ byte_of (board_read board set_rows.now rom_rows.now job counts.old (byte set address false) image.now) }
    ensures counts { counts.new ≡ counts_left job counts.old (board_read board set_rows.now rom_rows.now job counts.old (byte set address false) image.now) }
{
    if !job_counts::is_job(job) {
        return no_byte(image, board);
    }
    let before = job_counts::count_of(job, counts);
    let raw = byte_reads::byte_raw_on_count(image, board, set_rows, rom_rows, set, address, before);
    job_counts::leave(job, raw.count, counts);
    raw
}

pub fn read_rom_byte_demangled(
    image: &[u8],
    board: Board,
    set_rows: &[u32],
    rom_rows: &[u32],
    set: u32,
    address: SdrrAddress,
    job: u32,
    counts: &mut [u32; JOBS],
) -> ByteRead
    ensures reply { result ≡ byte_of (board_read board set_rows.now rom_rows.now job counts.old (byte set address true) image.now) }
    ensures counts { counts.new ≡ counts_left job counts.old (board_read board set_rows.now rom_rows.now job counts.old (byte set address true) image.now) }
{
    if !job_counts::is_job(job) {
        return no_byte(image, board);
    }
    let before = job_counts::count_of(job, counts);
    let shown = byte_reads::byte_demangled_on_count(
        image, board, set_rows, rom_rows, set, address, before,
    );
    job_counts::leave(job, shown.count, counts);
    shown
}

pub fn read_rom_byte_own(
    image: &[u8],
    board: Board,
    set_rows: &[u32],
    rom_rows: &[u32],
    set: u32,
    address: u32,
    cs_set: SdrrCsSet,
    job: u32,
    counts: &mut [u32; JOBS],
) -> ByteRead
    ensures reply { result ≡ byte_of (board_read board set_rows.now rom_rows.now job counts.old (own set address cs_set) image.now) }
    ensures counts { counts.new ≡ counts_left job counts.old (board_read board set_rows.now rom_rows.now job counts.old (own set address cs_set) image.now) }
{
    if !job_counts::is_job(job) {
        return no_byte(image, board);
    }
    let before = job_counts::count_of(job, counts);
    let own = own_reads::byte_own_on_count(
        image, board, set_rows, rom_rows, set, address, cs_set, before,
    );
    job_counts::leave(job, own.count, counts);
    own
}
