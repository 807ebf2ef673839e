// The report as a whole: its first line, the records, the sets, and a hint.
#![tactic(auto)]

use bench_out::{FileName, Out};
use bench_refuse::Asked;
use bench_rows::Opened;
use sdrr_info::SdrrInfo;
use std::fmt;
use std::fmt::Write;

// The first line. The sample is no board of the caller's: it says so.
fn heading(out: &mut Out, how: Asked, length: usize) -> fmt::Result {
    let rt = how.rt;
    let at = how.file;
    if out.is_script() {
        let sample = if at.is_none() { "dump.sample 1\n" } else { "" };
        return write!(out, "ok\n{sample}dump.bytes {length}\n");
    }
    let sample = if at.is_none() {
        ", the sample board"
    } else {
        ""
    };
    writeln!(
        out,
        "{}{sample}: a One ROM board, {length} bytes",
        FileName { rt, at }
    )
}

// The sets; and the hint where something does not lie within the dump.
fn sets(out: &mut Out, opened: Opened, info: SdrrInfo) -> fmt::Result {
    let item = info.rom_sets;
    let m = info.metadata;
    bench_sets::count(out, item, bench_report::lacks_metadata(m))?;
    let is_set_cut = bench_sets::sets(out, opened)?;
    if is_set_cut || bench_report::is_cut(info) {
        bench_report::cut_note(out)?;
    }
    Ok(())
}

fn page(out: &mut Out, how: Asked, opened: Opened, info: SdrrInfo) -> fmt::Result {
    let image = opened.image;
    heading(out, how, image.len())?;
    bench_report::records(out, image, info)?;
    sets(out, opened, info)?;
    out.end()
}

// Writes the whole of it, and says the status that the program ends with.
pub fn report(how: Asked, opened: Opened, info: SdrrInfo) -> u8 {
    let mut out = how.output();
    let written = page(&mut out, how, opened, info);
    how.ended(written, "")
}
