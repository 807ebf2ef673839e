// The ROM reads as C and Rust call them, by a report handed back and with a count for each job: 1, 83, then the call on the job's own count.
#![tactic(auto)]

ghost use Rattle.std.specs.Prelude.{◌≡◌, true, false, length};
ghost use Rattle.info.specs.Reads.{buffer_left};
ghost use Rattle.byte_reads.specs.Calls.{byte_of};
ghost use Rattle.jobs.specs.Jobs.{counts_left};
ghost use Rattle.c_board.specs.Value.{value_after};
ghost use Rattle.c_job_reads.specs.Reads.{data_call, byte_call, own_call};

use c_report::OneromReport;
use job_counts::JOBS;

pub fn data_call(
    image: &[u8],
    flash_base: u32,
    cs0_base: u32,
    report: OneromReport,
    set_rows: &[u32],
    set: u32,
    offset: u32,
    buffer: &mut [u8],
    job: u32,
    counts: &mut [u32; JOBS],
) -> u32
    ensures reply { result ≡ (data_call flash_base cs0_base report set_rows.now set offset (length buffer.old) job counts.old image.now).number }
    ensures buffer { buffer.new ≡ buffer_left (data_call flash_base cs0_base report set_rows.now set offset (length buffer.old) job counts.old image.now) buffer.old }
    ensures counts { counts.new ≡ counts_left job counts.old (data_call flash_base cs0_base report set_rows.now set offset (length buffer.old) job counts.old image.now) }
{
    if !job_counts::is_job(job) {
        return job_counts::no_job(image, flash_base, cs0_base).number() as u32;
    }
    let mut data_count = job_counts::count_of(job, counts);
    let number = c_reads::data_on_count(
        image,
        flash_base,
        cs0_base,
        report,
        set_rows,
        set,
        offset,
        buffer,
        &mut data_count,
    );
    job_counts::leave(job, data_count, counts);
    number
}

pub fn raw_byte_call(
    image: &[u8],
    flash_base: u32,
    cs0_base: u32,
    report: OneromReport,
    set_rows: &[u32],
    rom_rows: &[u32],
    set: u32,
    logical: u8,
    address: u32,
    levels: &[u8; 5],
    job: u32,
    counts: &mut [u32; JOBS],
    value: &mut u8,
) -> u32
    ensures reply { result ≡ (byte_call false flash_base cs0_base report set_rows.now rom_rows.now set logical address levels.now job counts.old image.now).number }
    ensures counts { counts.new ≡ counts_left job counts.old (byte_call false flash_base cs0_base report set_rows.now rom_rows.now set logical address levels.now job counts.old image.now) }
    ensures value { value.new ≡ value_after result (byte_of (byte_call false flash_base cs0_base report set_rows.now rom_rows.now set logical address levels.now job counts.old image.now)).byte value.old }
{
    if !job_counts::is_job(job) {
        return job_counts::no_job(image, flash_base, cs0_base).number() as u32;
    }
    let mut raw_count = job_counts::count_of(job, counts);
    let number = c_reads::raw_byte_on_count(
        image,
        flash_base,
        cs0_base,
        report,
        set_rows,
        rom_rows,
        set,
        logical,
        address,
        levels,
        &mut raw_count,
        value,
    );
    job_counts::leave(job, raw_count, counts);
    number
}

pub fn demangled_byte_call(
    image: &[u8],
    flash_base: u32,
    cs0_base: u32,
    report: OneromReport,
    set_rows: &[u32],
    rom_rows: &[u32],
    set: u32,
    logical: u8,
    address: u32,
    levels: &[u8; 5],
    job: u32,
    counts: &mut [u32; JOBS],
    value: &mut u8,
) -> u32
    ensures reply { result ≡ (byte_call true flash_base cs0_base report set_rows.now rom_rows.now set logical address levels.now job counts.old image.now).number }
    ensures counts { counts.new ≡ counts_left job counts.old (byte_call true flash_base cs0_base report set_rows.now rom_rows.now set logical address levels.now job counts.old image.now) }
    ensures value { value.new ≡ value_after result (byte_of (byte_call true flash_base cs0_base report set_rows.now rom_rows.now set logical address levels.now job counts.old image.now)).byte value.old }
{
    if !job_counts::is_job(job) {
        return job_counts::no_job(image, flash_base, cs0_base).number() as u32;
    }
    let mut shown_count = job_counts::count_of(job, counts);
    let number = c_reads::demangled_byte_on_count(
        image,
        flash_base,
        cs0_base,
        report,
        set_rows,
        rom_rows,
        set,
        logical,
        address,
        levels,
        &mut shown_count,
        value,
    );
    job_counts::leave(job, shown_count, counts);
    number
}

pub fn own_byte_call(
    image: &[u8],
    flash_base: u32,
    cs0_base: u32,
    report: OneromReport,
    set_rows: &[u32],
    rom_rows: &[u32],
    set: u32,
    address: u32,
    levels: &[u8; 5],
    job: u32,
    counts: &mut [u32; JOBS],
    value: &mut u8,
) -> u32
    ensures reply { result ≡ (own_call flash_base cs0_base report set_rows.now rom_rows.now set address levels.now job counts.old image.now).number }
    ensures counts { counts.new ≡ counts_left job counts.old (own_call flash_base cs0_base report set_rows.now rom_rows.now set address levels.now job counts.old image.now) }
    ensures value { value.new ≡ value_after result (byte_of (own_call flash_base cs0_base report set_rows.now rom_rows.now set address levels.now job counts.old image.now)).byte value.old }
{
    if !job_counts::is_job(job) {
        return job_counts::no_job(image, flash_base, cs0_base).number() as u32;
    }
    let mut own_count = job_counts::count_of(job, counts);
    let number = c_own::own_byte_on_count(
        image,
        flash_base,
        cs0_base,
        report,
        set_rows,
        rom_rows,
        set,
        address,
        levels,
        &mut own_count,
        value,
    );
    job_counts::leave(job, own_count, counts);
    number
}
