// Demand 3 on the code as it runs: an image cut short, opened beside the whole.
use super::cut_reads::Boards;
use super::tally::{Tally, Verdict};
use super::{cut_reads, opened, record, report, tally, words};
use rows::RomWord;
use sdrr_info::SdrrInfo;
use std::io;

// A cut that was opened: its length, its number and report, and the whole's report.
#[derive(Clone, Copy)]
struct Cut {
    length: u32,
    number: u8,
    report: SdrrInfo,
    whole: SdrrInfo,
}

// ---- items

// An item of the cut is ended, or equal to the whole's.
fn item_holds(
    whole: &[u32; report::WORDS],
    cut: &[u32; report::WORDS],
    from: usize,
    n: usize,
) -> bool {
    if report::at(cut, from) == 2 {
        return true;
    }
    report::same(whole, cut, from, n)
}

// A text of the cut is ended and shows nothing, its offset, length and width 0; or it is the whole's.
fn text_holds(whole: &[u32; report::WORDS], cut: &[u32; report::WORDS], from: usize) -> bool {
    let ended = [2, 0, 0, 0];
    if words::same_all(words::part(cut, from, report::TEXT_WORDS), &ended) {
        return true;
    }
    report::same(whole, cut, from, report::TEXT_WORDS)
}

// All items but the sets item.
fn items_hold(whole: &[u32; report::WORDS], cut: &[u32; report::WORDS]) -> bool {
    if !report::same(whole, cut, 0, report::FIELD_WORDS) {
        return false;
    }
    if !text_holds(whole, cut, report::BUILD_DATE) {
        return false;
    }
    if !text_holds(whole, cut, report::HW_REV) {
        return false;
    }
    if !item_holds(whole, cut, report::EXTRA_INFO, report::EXTRA_INFO_WORDS) {
        return false;
    }
    if !item_holds(whole, cut, report::METADATA, 1) {
        return false;
    }
    item_holds(whole, cut, report::PINS, report::PINS_WORDS)
}

// Whether two ROM rows agree in a word.
fn same_word(a: &[u32], b: &[u32], word: RomWord) -> bool {
    rows::rom_word(a, 0, word) == rows::rom_word(b, 0, word)
}

// Whether the reason of a ROM row's name is that it is ended.
fn name_ends(row: &[u32]) -> bool {
    rows::rom_word(row, 0, RomWord::NameReason) == 2
}

// A missing name shows nothing: its offset, length and width are 0.
fn shows_no_name(row: &[u32]) -> bool {
    if rows::rom_word(row, 0, RomWord::NameOffset) != 0 {
        return false;
    }
    if rows::rom_word(row, 0, RomWord::NameLength) != 0 {
        return false;
    }
    rows::rom_word(row, 0, RomWord::NameWidth) == 0
}

// A ROM row: type and states are the whole's. The name is ended, or its words, the width among them, are the whole's.
fn rom_row_holds(whole: &[u32], cut: &[u32]) -> bool {
    if !same_word(whole, cut, RomWord::Type) {
        return false;
    }
    if !same_word(whole, cut, RomWord::Cs1) {
        return false;
    }
    if !same_word(whole, cut, RomWord::Cs2) {
        return false;
    }
    if !same_word(whole, cut, RomWord::Cs3) {
        return false;
    }
    if name_ends(cut) {
        return shows_no_name(cut);
    }
    words::same_all(whole, cut)
}

// The ROM row from an index on.
fn row_at(roms: &[u32], at: usize) -> &[u32] {
    words::part(roms, at, rows::ROM_WORDS)
}

// ROM rows and, where they end, what was in the buffer before.
fn rom_rows_hold(whole: &[u32], cut: &[u32]) -> bool {
    let mut at = 0;
    while rows::ROM_WORDS <= cut.len() - at {
        if !rom_row_holds(row_at(whole, at), row_at(cut, at)) {
            return false;
        }
        at += rows::ROM_WORDS;
    }
    words::same_all(words::from(whole, at), words::from(cut, at))
}

// Whether one of the ROM rows' names is ended.
fn name_ended(roms: &[u32]) -> bool {
    let mut at = 0;
    while rows::ROM_WORDS <= roms.len() - at {
        if name_ends(row_at(roms, at)) {
            return true;
        }
        at += rows::ROM_WORDS;
    }
    false
}

// Whether one of the report's items is ended.
fn item_ended(cut: &[u32; report::WORDS]) -> bool {
    if report::at(cut, report::BUILD_DATE) == 2 {
        return true;
    }
    if report::at(cut, report::HW_REV) == 2 {
        return true;
    }
    if report::at(cut, report::EXTRA_INFO) == 2 {
        return true;
    }
    if report::at(cut, report::METADATA) == 2 {
        return true;
    }
    if report::at(cut, report::SETS) == 2 {
        return true;
    }
    report::at(cut, report::PINS) == 2
}

// The sets item is ended and no row is written; or it and its rows, names aside, are the whole's.
fn sets_hold(
    whole: &[u32; report::WORDS],
    cut: &[u32; report::WORDS],
    sets: &[u32],
    roms: &[u32],
    cut_sets: &[u32],
    cut_roms: &[u32],
) -> bool {
    if report::at(cut, report::SETS) == 2 {
        return base::both(words::is_untouched(cut_sets), words::is_untouched(cut_roms));
    }
    if !report::same(whole, cut, report::SETS, report::SETS_WORDS) {
        return false;
    }
    if !words::same_all(sets, cut_sets) {
        return false;
    }
    rom_rows_hold(roms, cut_roms)
}

// A cut that opens, below the reach.
fn ended_holds(
    whole: &[u32; report::WORDS],
    cut: &[u32; report::WORDS],
    sets: &[u32],
    roms: &[u32],
    cut_sets: &[u32],
    cut_roms: &[u32],
) -> bool {
    if !base::either(item_ended(cut), name_ended(cut_roms)) {
        return false;
    }
    if !items_hold(whole, cut) {
        return false;
    }
    sets_hold(whole, cut, sets, roms, cut_sets, cut_roms)
}

// A cut that opens, at or past the reach.
fn equal_holds(
    whole: &[u32; report::WORDS],
    cut: &[u32; report::WORDS],
    sets: &[u32],
    roms: &[u32],
    cut_sets: &[u32],
    cut_roms: &[u32],
) -> bool {
    if !report::same(whole, cut, 0, report::WORDS) {
        return false;
    }
    if !words::same_all(sets, cut_sets) {
        return false;
    }
    words::same_all(roms, cut_roms)
}

// A cut that is refused: as ended, below the reach, and no row is written.
fn refusal_holds(cut_sets: &[u32], cut_roms: &[u32], number: u8, below: bool) -> bool {
    let kept = base::both(words::is_untouched(cut_sets), words::is_untouched(cut_roms));
    base::both(kept, base::both(below, number == 2))
}

// A cut that opens.
fn opened_holds(
    whole: &[u32; report::WORDS],
    cut: &[u32; report::WORDS],
    sets: &[u32],
    roms: &[u32],
    cut_sets: &[u32],
    cut_roms: &[u32],
    below: bool,
) -> bool {
    if below {
        return ended_holds(whole, cut, sets, roms, cut_sets, cut_roms);
    }
    equal_holds(whole, cut, sets, roms, cut_sets, cut_roms)
}

// ---- a cut, and all cuts of a board

// Opens the image's first bytes, so many.
fn open(
    given: &[u8],
    length: u32,
    whole: SdrrInfo,
    cut_sets: &mut [u32],
    cut_roms: &mut [u32],
) -> Cut {
    let image = record::cut_image(given, length);
    let o = opened::open(image, opened::settings(given), cut_sets, cut_roms);
    let report = o.info;
    Cut {
        length,
        number: o.number,
        report,
        whole,
    }
}

// What the opening of a cut came to.
fn judged(
    c: Cut,
    given: &[u8],
    sets: &[u32],
    roms: &[u32],
    cut_sets: &[u32],
    cut_roms: &[u32],
) -> Verdict {
    let below = c.length < record::word(given, 9);
    let shown = c.whole;
    let whole = report::words_of(shown);
    let cut_shown = c.report;
    let cut = report::words_of(cut_shown);
    let held = if c.number != 0 {
        refusal_holds(cut_sets, cut_roms, c.number, below)
    } else {
        opened_holds(&whole, &cut, sets, roms, cut_sets, cut_roms, below)
    };
    let rows = words::mix(words::sum(cut_sets), words::sum(cut_roms));
    Verdict {
        number: c.number,
        below,
        held,
        sum: words::mix(words::mix(rows, c.number as u32), report::sum(&cut)),
    }
}

fn boards(c: Cut, given: &[u8]) -> Boards {
    let s = opened::settings(given);
    let shown = c.whole;
    let cut_shown = c.report;
    Boards {
        length: c.length,
        whole: sdrr_info::board(s, shown),
        cut: sdrr_info::board(s, cut_shown),
    }
}

// The opening beside the whole's; then, where it is not refused, the reads.
fn compared(
    c: Cut,
    given: &[u8],
    sets: &[u32],
    roms: &[u32],
    cut_sets: &[u32],
    cut_roms: &[u32],
    tally: Tally,
) -> Tally {
    let v = judged(c, given, sets, roms, cut_sets, cut_roms);
    let t = tally::with_cut(tally, v);
    if c.number != 0 {
        return t;
    }
    cut_reads::run(boards(c, given), given, sets, roms, cut_sets, cut_roms, t)
}

// The cuts, whose lengths stand behind the calls.
pub(crate) fn run(
    rt: &impl Print,
    given: &[u8],
    whole: SdrrInfo,
    sets: &[u32],
    roms: &[u32],
    cut_sets: &mut [u32],
    cut_roms: &mut [u32],
) -> io::Result<()> {
    let n = record::cuts(given);
    let mut t = tally::none();
    for k in 0..n {
        let c = open(given, record::cut(given, k), whole, cut_sets, cut_roms);
        t = compared(c, given, sets, roms, cut_sets, cut_roms, t);
    }
    tally::show(rt, t, n)
}
