// The report on a board, for a person or for a script (docs/BENCH.md lists a script's keys): everything but the sets.
#![tactic(auto)]

mod extra; // extra info
mod header_lines;
mod pin_lines;

use bench_form::Reason;
use bench_out::{Out, Shown};
use metadata::MetadataItem;
use sdrr_info::SdrrInfo;
use std::fmt;
use std::fmt::Write;
use text::Text;

// Why an item is refused.
fn refused(out: &mut Out, label: &str, key: &str, number: u8) -> fmt::Result {
    let why = Reason(number);
    if out.is_script() {
        return write!(out, "{key}.number {number}\n{key}.reason {why}\n");
    }
    writeln!(out, "{label:<19}refused with {number}: {why}")
}

// A text of the dump, or why there is none.
fn words(out: &mut Out, label: &str, key: &str, image: &[u8], t: Text) -> fmt::Result {
    if t.number != 0 {
        return refused(out, label, key, t.number);
    }
    let width = t.width;
    let shown = Shown(text::string_part(image, t));
    if out.is_script() {
        return write!(
            out,
            "{key}.number 0\n{key}.text {shown}\n{key}.width {width}\n"
        );
    }
    writeln!(out, "{label:<19}{shown}")
}

fn metadata(out: &mut Out, m: MetadataItem) -> fmt::Result {
    match m {
        MetadataItem::Looked(0) if out.is_script() => writeln!(out, "metadata.number 0"),
        MetadataItem::Looked(0) => writeln!(out, "Metadata           found"),
        MetadataItem::Looked(number) => refused(out, "Metadata", "metadata", number),
        MetadataItem::NotLookedFor if out.is_script() => writeln!(
            out,
            "metadata.number not_looked_for"
        ),
        MetadataItem::NotLookedFor => writeln!(
            out,
            "Metadata           none before firmware 0.5.0"
        ),
    }
}

// Whether metadata was looked for and refused: then no set can be found.
pub fn lacks_metadata(m: MetadataItem) -> bool {
    match m {
        MetadataItem::Looked(number) => number != 0,
        MetadataItem::NotLookedFor => false,
    }
}

pub fn records(out: &mut Out, image: &[u8], info: SdrrInfo) -> fmt::Result {
    let fields = info.fields;
    let date = info.build_date;
    let rev = info.hw_rev;
    let version = fields.version;
    let extra = info.extra_info;
    let pins = info.pins;
    let m = info.metadata;
    header_lines::firmware(out, fields)?;
    words(out, "Build date", "build_date", image, date)?;
    words(out, "Hardware revision", "hw_rev", image, rev)?;
    header_lines::flags(out, fields)?;
    extra::lines(out, extra, version)?;
    pin_lines::pins(out, pins)?;
    metadata(out, m)
}

// Whether a text, the pins or the sets do not all lie within the dump. (Sets are marked so too where metadata is.)
pub fn is_cut(info: SdrrInfo) -> bool {
    info.build_date.number == 2
        || info.hw_rev.number == 2
        || info.pins.number == 2
        || info.rom_sets.number == 2
}

// For a person: a hint where something does not lie within the dump.
pub fn cut_note(out: &mut Out) -> fmt::Result {
    if out.is_script() {
        return Ok(());
    }
    writeln!(
        out,
        "\nthe dump may be cut short: what is refused with 2 does not all lie within it"
    )
}
