// The walk's second pass, which writes the rows of sets and ROMs that the first has judged.
#![tactic(auto)]

ghost use Rattle.std.specs.Prelude.{◌≡◌, ◌+◌, ◌*◌, ◌≤◌, length};
ghost use Rattle.prog.specs.Prog.{run};
ghost use Rattle.rows.specs.LentRows.{set_row_length, rom_row_length};
ghost use Rattle.walk.specs.Walk.{rom_of, roms_of};
ghost use Rattle.walk.specs.Rows.{set_rows_of, overwritten};
ghost use Rattle.walk.specs.Names.{name_p};
ghost use Rattle.walk.specs.Code.Passes.{rom_at, roms_at, sets_at};
ghost use Rattle.write_rows.specs.Code.{set_row_words, rom_row_words, named_row, named_rows};

use rows::{ROM_WORDS, SET_WORDS};
use text::Text;
use walk::WalkBy;

// The words are put in over a row. A loop, since `copy_from_slice` takes them through memory once more: an opening of many ROMs then takes a sixth more
// instructions.
#[tactic(auto, using(crate::proofs::RowSteps::words_steps))]
fn put_words(row: &mut [u32], words: &[u32])
    requires { length row.old ≡ length words.now }
    ensures { row.new ≡ words.now }
{
    for (i, word) in words.iter().enumerate() {
        row[i] = *word;
    }
}

// The row of the set whose part of the image is s.
#[tactic(auto, unfolding(crate::specs::Code::set_row_words))]
fn set_row(first: u32, s: &[u8]) -> [u32; SET_WORDS]
    ensures { result ≡ set_row_words first s.now }
{
    [
        le::u32_at(s, 0),
        le::u32_at(s, 4),
        first,
        le::u8_at(s, 12) as u32,
        le::u8_at(s, 13) as u32,
        le::u8_at(s, 14) as u32,
        set_header::serve_config(s),
        set_header::firmware_overrides(s),
    ]
}

// The row of a ROM info and its name.
#[tactic(auto, unfolding(crate::specs::Code::rom_row_words))]
fn rom_row(s: &[u8], name: Text) -> [u32; ROM_WORDS]
    ensures { result ≡ rom_row_words s.now name }
{
    [
        le::u8_at(s, 0) as u32,
        le::u8_at(s, 1) as u32,
        le::u8_at(s, 2) as u32,
        le::u8_at(s, 3) as u32,
        name.offset,
        name.length,
        name.number as u32,
        name.width,
    ]
}

// The name of a ROM info; one that is missing has reason 1, without a read.
#[tactic(auto, using(crate::proofs::RowSteps::named_steps))]
fn rom_name(by: WalkBy, s: &[u8]) -> Text
    ensures { result ≡ run (name_p by.entry.window.base (rom_of by.entry.window.base by.entry.filenames s.now).name) by.entry.window.image.now }
{
    let ptr = le::u32_at(s, 4);
    let base = by.window.base;
    let away = ptr < base || ptr == 4294967295;
    if by.filenames && !away {
        return text::text_item(strings::read_string_at_ptr(by.window, ptr));
    }
    Text {
        number: 1,
        offset: 0,
        length: 0,
        width: 0,
    }
}

// The row of the ROM whose pointer is in an entry of the table.
#[tactic(auto, using(crate::proofs::RowSteps::named_steps))]
fn named_row(by: WalkBy, entry: u64) -> [u32; ROM_WORDS]
    ensures { result ≡ named_row by.entry.window.image.now by.entry.window.base (rom_at by.entry.window.image.now by.entry.window.base by.entry.filenames entry) }
{
    let s = by
        .window
        .part_from(set_header::info_ptr(by.window, entry) as u64);
    rom_row(s, rom_name(by, s))
}

// The rows of so many ROMs, from the front. By index: of the elements that `chunks_exact_mut` lent, a proof knows nothing afterwards.
#[tactic(auto, using(crate::proofs::RowSteps::roms_steps))]
fn write_roms(rows: &mut [u32], by: WalkBy, table: u32, count: u8)
    requires { rom_row_length * count ≤ length rows.old }
    ensures { rows.new ≡ overwritten (named_rows by.entry.window.image.now by.entry.window.base (roms_at by.entry.window.image.now by.entry.window.base by.entry.filenames table count)) rows.old }
{
    for k in 0..count as usize {
        let row = named_row(by, table as u64 + 4 * k as u64);
        put_words(&mut rows[ROM_WORDS * k..ROM_WORDS * (k + 1)], &row);
    }
}

// The second pass: the rows of so many sets and of their ROMs, from the front of both. Before every set `total` is the sum of the earlier sets'
// counts, as the loop's invariant says (`total_is_sum` in proofs/write_rom_sets/Invariants.antt): the set's first ROM row.
#[tactic(auto, using(crate::proofs::RowSteps::sets_steps))]
pub fn write_rom_sets(by: WalkBy, count: u8, ptr: u32, set_rows: &mut [u32], rom_rows: &mut [u32])
    requires sets { set_row_length * count ≤ length set_rows.old }
    requires roms { rom_row_length * length (roms_of (sets_at by.window.image.now by.window.base by.filenames by.long ptr count)) ≤ length rom_rows.old }
    ensures sets { set_rows.new ≡ overwritten (set_rows_of (sets_at by.entry.window.image.now by.entry.window.base by.entry.filenames by.entry.long ptr count)) set_rows.old }
    ensures roms { rom_rows.new ≡ overwritten (named_rows by.entry.window.image.now by.entry.window.base (roms_of (sets_at by.entry.window.image.now by.entry.window.base by.entry.filenames by.entry.long ptr count))) rom_rows.old }
{
    let mut address = ptr as u64;
    let mut total = 0;
    for i in 0..count as usize {
        let s = by.window.part_from(address);
        let next = set_header::total_with(total, le::u8_at(s, 12));
        let row = set_row(total, s);
        put_words(&mut set_rows[SET_WORDS * i..SET_WORDS * (i + 1)], &row);
        let roms = &mut rom_rows[ROM_WORDS * total as usize..ROM_WORDS * next as usize];
        write_roms(roms, by, le::u32_at(s, 8), le::u8_at(s, 12));
        address += set_header::set_stride(by.long, s);
        total = next;
    }
}
