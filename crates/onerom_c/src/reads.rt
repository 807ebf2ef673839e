// ROM data, the byte reads, size and same set, exported.
ghost use Rattle.std.specs.Prelude.{◌≡◌, true, false, length};
ghost use Rattle.set_data.specs.Data.{size_call};
ghost use Rattle.same_set.specs.Same.{same_set};
ghost use Rattle.info.specs.Reads.{buffer_left};
ghost use Rattle.c_board.specs.Value.{value_after};
ghost use Rattle.byte_reads.specs.Calls.{byte_of};
ghost use Rattle.jobs.specs.Jobs.{counts_left};
ghost use Rattle.c_job_reads.specs.Reads.{data_call, byte_call, own_call};

use c_report::OneromReport;

#[unsafe(no_mangle)]
pub extern "C" fn onerom_get_rom_set_size(
    served: u32,
    set_rows: &[u32],
    set: u32,
    value: &mut u32,
) -> u32
    ensures reply { result ≡ (size_call served set_rows.now set).number }
    ensures value { value.new ≡ value_after result (size_call served set_rows.now set).value value.old }
{
    onerom::reads::onerom_get_rom_set_size(served, set_rows, set, value)
}

#[unsafe(no_mangle)]
pub extern "C" fn onerom_same_set(
    served: u32,
    set_rows: &[u32],
    rom_rows: &[u32],
    a: u32,
    b: u32,
    value: &mut u32,
) -> u32
    ensures reply { result ≡ (same_set served set_rows.now rom_rows.now a b).number }
    ensures value { value.new ≡ value_after result (same_set served set_rows.now rom_rows.now a b).value value.old }
{
    onerom::reads::onerom_same_set(served, set_rows, rom_rows, a, b, value)
}

#[unsafe(no_mangle)]
pub extern "C" fn onerom_read_rom_set_data(
    image: &[u8],
    flash_base: u32,
    cs0_base: u32,
    report: OneromReport,
    set_rows: &[u32],
    set: u32,
    offset: u32,
    buffer: &mut [u8],
    job: u32,
    counts: &mut [u32; job_counts::JOBS],
) -> u32
    ensures reply { result ≡ (data_call flash_base cs0_base report set_rows.now set offset (length buffer.old) job counts.old image.now).number }
    ensures buffer { buffer.new ≡ buffer_left (data_call flash_base cs0_base report set_rows.now set offset (length buffer.old) job counts.old image.now) buffer.old }
    ensures counts { counts.new ≡ counts_left job counts.old (data_call flash_base cs0_base report set_rows.now set offset (length buffer.old) job counts.old image.now) }
{
    onerom::reads::onerom_read_rom_set_data(
        image, flash_base, cs0_base, report, set_rows, set, offset, buffer, job, counts,
    )
}

#[unsafe(no_mangle)]
pub extern "C" fn onerom_read_rom_byte_raw(
    image: &[u8],
    flash_base: u32,
    cs0_base: u32,
    report: OneromReport,
    set_rows: &[u32],
    rom_rows: &[u32],
    set: u32,
    logical: u8,
    address: u32,
    levels: &[u8; 5],
    job: u32,
    counts: &mut [u32; job_counts::JOBS],
    value: &mut u8,
) -> u32
    ensures reply { result ≡ (byte_call false flash_base cs0_base report set_rows.now rom_rows.now set logical address levels.now job counts.old image.now).number }
    ensures counts { counts.new ≡ counts_left job counts.old (byte_call false flash_base cs0_base report set_rows.now rom_rows.now set logical address levels.now job counts.old image.now) }
    ensures value { value.new ≡ value_after result (byte_of (byte_call false flash_base cs0_base report set_rows.now rom_rows.now set logical address levels.now job counts.old image.now)).byte value.old }
{
    onerom::reads::onerom_read_rom_byte_raw(
        image, flash_base, cs0_base, report, set_rows, rom_rows, set, logical, address, levels,
        job, counts, value,
    )
}

#[unsafe(no_mangle)]
pub extern "C" fn onerom_read_rom_byte_demangled(
    image: &[u8],
    flash_base: u32,
    cs0_base: u32,
    report: OneromReport,
    set_rows: &[u32],
    rom_rows: &[u32],
    set: u32,
    logical: u8,
    address: u32,
    levels: &[u8; 5],
    job: u32,
    counts: &mut [u32; job_counts::JOBS],
    value: &mut u8,
) -> u32
    ensures reply { result ≡ (byte_call true flash_base cs0_base report set_rows.now rom_rows.now set logical address levels.now job counts.old image.now).number }
    ensures counts { counts.new ≡ counts_left job counts.old (byte_call true flash_base cs0_base report set_rows.now rom_rows.now set logical address levels.now job counts.old image.now) }
    ensures value { value.new ≡ value_after result (byte_of (byte_call true flash_base cs0_base report set_rows.now rom_rows.now set logical address levels.now job counts.old image.now)).byte value.old }
{
    onerom::reads::onerom_read_rom_byte_demangled(
        image, flash_base, cs0_base, report, set_rows, rom_rows, set, logical, address, levels,
        job, counts, value,
    )
}

#[unsafe(no_mangle)]
pub extern "C" fn onerom_read_rom_byte_own(
    image: &[u8],
    flash_base: u32,
    cs0_base: u32,
    report: OneromReport,
    set_rows: &[u32],
    rom_rows: &[u32],
    set: u32,
    address: u32,
    levels: &[u8; 5],
    job: u32,
    counts: &mut [u32; job_counts::JOBS],
    value: &mut u8,
) -> u32
    ensures reply { result ≡ (own_call flash_base cs0_base report set_rows.now rom_rows.now set address levels.now job counts.old image.now).number }
    ensures counts { counts.new ≡ counts_left job counts.old (own_call flash_base cs0_base report set_rows.now rom_rows.now set address levels.now job counts.old image.now) }
    ensures value { value.new ≡ value_after result (byte_of (own_call flash_base cs0_base report set_rows.now rom_rows.now set address levels.now job counts.old image.now)).byte value.old }
{
    onerom::reads::onerom_read_rom_byte_own(
        image, flash_base, cs0_base, report, set_rows, rom_rows, set, address, levels, job, counts,
        value,
    )
}
