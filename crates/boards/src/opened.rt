// A board that is opened: its report, its rows, the calls on them, and its cuts.
use super::{cuts, lines, record, report, show, words};
use board::Board;
use fw_parser::Opening;
use rows::SetWord;
use sdrr_info::SdrrInfo;
use std::io;
use window::Settings;

pub(crate) fn settings(given: &[u8]) -> Settings {
    Settings {
        flash_base: record::word(given, 1),
        cs0_base: record::word(given, 2),
        info_offset: record::word(given, 3),
    }
}

// Opens an image with rows that are filled before.
pub(crate) fn open(image: &[u8], s: Settings, sets: &mut [u32], roms: &mut [u32]) -> Opening {
    words::fill(sets);
    words::fill(roms);
    fw_parser::parse_flash(image, s, sets, roms)
}

// The number and the report; of a refusal the number and the report's sum.
fn show_report(rt: &impl Print, number: u8, report: &[u32; report::WORDS]) -> io::Result<()> {
    show::first(rt, number as u32)?;
    if number == 0 {
        report::show(rt, report)?;
    } else {
        show::next(rt, report::sum(report))?;
    }
    show::end(rt)
}

// The sum of a whole buffer of rows, then the words of its rows, n of them; of more than 16 rows the first and the last.
fn show_rows(rt: &impl Print, buffer: &[u32], row_words: u8, n: usize) -> io::Result<()> {
    show::first(rt, words::sum(buffer))?;
    let w = row_words as usize;
    if n <= 16 * w {
        show::words(rt, words::part(buffer, 0, n))?;
    } else {
        show::words(rt, words::part(buffer, 0, w))?;
        show::words(rt, words::part(buffer, n - w, w))?;
    }
    show::end(rt)
}

// How many ROM rows the sets have: the last set's first row and its count.
fn rom_rows(sets: &[u32], served: u32) -> u32 {
    if served == 0 {
        return 0;
    }
    let first = rows::set_word(sets, served - 1, SetWord::FirstRom);
    let count = rows::set_word(sets, served - 1, SetWord::RomCount);
    first % 65536 + count % 256
}

fn show_all_rows(rt: &impl Print, sets: &[u32], roms: &[u32], served: u32) -> io::Result<()> {
    show_rows(
        rt,
        sets,
        rows::SET_WORDS as u8,
        rows::SET_WORDS * (served as usize),
    )?;
    show_rows(
        rt,
        roms,
        rows::ROM_WORDS as u8,
        rows::ROM_WORDS * (rom_rows(sets, served) as usize),
    )
}

// Shows the answer, and runs the calls.
fn show_opening(
    rt: &impl Print,
    given: &[u8],
    b: Board,
    o: Opening,
    sets: &[u32],
    roms: &[u32],
) -> io::Result<()> {
    let info = o.info;
    let report = report::words_of(info);
    show_report(rt, o.number, &report)?;
    show_all_rows(rt, sets, roms, b.served)?;
    lines::run(rt, given, b, sets, roms, record::calls(given))
}

// The cuts, where there are any.
fn run_cuts(
    rt: &impl Print,
    given: &[u8],
    info: SdrrInfo,
    sets: &[u32],
    roms: &[u32],
) -> io::Result<()> {
    let n = sets.len();
    let m = roms.len();
    if record::word(given, 8) == 0 {
        return Ok(());
    }
    if 4096 < n {
        return Ok(());
    }
    if 4096 < m {
        return Ok(());
    }
    let mut cut_sets = words::set_space();
    let mut cut_roms = words::set_space();
    cuts::run(
        rt,
        given,
        info,
        sets,
        roms,
        &mut cut_sets[..n],
        &mut cut_roms[..m],
    )
}

// Opens the image, and each of its cuts.
pub(crate) fn run(
    rt: &impl Print,
    given: &[u8],
    sets: &mut [u32],
    roms: &mut [u32],
) -> io::Result<()> {
    let s = settings(given);
    let o = open(record::image(given), s, sets, roms);
    let info = o.info;
    show_opening(rt, given, sdrr_info::board(s, info), o, sets, roms)?;
    run_cuts(rt, given, info, sets, roms)
}
