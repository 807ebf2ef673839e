// Runs the vectors of tests/model/make.py: a vector to a line of standard input, its answer to a line of standard output, which `rt check`
// compares with the expected lines beside it.
#![tactic(auto)]

mod lines;
mod mangling;
mod show;

ghost use Rattle.std.specs.Prelude.{◌≡◌, ◌<◌, ◌≤◌, length, IfOk};

use std::io;
use std::io::Read;
use window::Window;

// The contract gives the length alone, so that no caller's proof computes the list.
fn input_space() -> [u8; 2097152]
    ensures { 2097152 ≡ length result }
{
    [0; 2097152]
}

// Reads until the space is full or the input ends.
fn read_full(input: &mut impl Read, space: &mut [u8]) -> io::Result<usize>
    ensures { IfOk result (λ n. n ≤ length space.new) }
{
    let mut done = 0;
    while done < space.len() {
        let more = input.read(&mut space[done..])?;
        if more == 0 {
            break;
        }
        done += more;
    }
    Ok(done)
}

fn run_runtime(rt: &impl Print, record: &[u8], ram_base: u32) -> io::Result<()> {
    let mut words = [0u32; 25];
    let number = onerom::onerom_runtime(record, ram_base, &mut words);
    show::first(rt, number)?;
    if number == 0 {
        show::words(rt, &words)?;
    }
    Ok(())
}

fn run_version(line: &[u8]) -> version::FirmwareVersion {
    version::FirmwareVersion {
        major: lines::half(line, 2),
        minor: lines::half(line, 3),
        patch: lines::half(line, 4),
        build: lines::half(line, 5),
    }
}

fn run_extra_info(rt: &impl Print, line: &[u8], image: &[u8]) -> io::Result<()> {
    let base = lines::number(line, 0);
    let pointer = lines::number(line, 1);
    let version = run_version(line);
    let r = extra_info::read_extra_info(Window { image, base }, pointer, version);
    show::extra_info(rt, extra_info::extra_info_item(r))
}

// A string by the call for C and Rust.
fn run_string(rt: &impl Print, image: &[u8], base: u32, pointer: u32) -> io::Result<()> {
    let mut part = [0u32; text::PART_WORDS];
    let number = onerom::onerom_string(image, base, pointer, &mut part);
    show::four(rt, number, part[0], part[1], part[2])
}

// A kind whose numbers are a base and a pointer or an offset.
fn run_record(rt: &impl Print, kind: u8, line: &[u8], image: &[u8]) -> io::Result<()> {
    let base = lines::number(line, 0);
    let at = lines::number(line, 1);
    let w = Window { image, base };
    match kind {
        b's' => show::text(rt, text::text_item(strings::read_string_at_ptr(w, at))),
        b'S' => run_string(rt, image, base, at),
        b'h' => show::header(rt, header_record::retrieve_header(w, at)),
        b'm' => show::metadata(rt, metadata::read_one_rom_metadata_header_info(w, at)),
        b'p' => show::pins(rt, pins::pins_item(pins_record::read_pins(w, at))),
        _ => show::first(rt, 255),
    }
}

// The first pins of the bytes: all 32, or the eight data pins.
fn board_pins(bytes: [u8; 4096]) -> [u8; 32] {
    let mut p = [0u8; 32];
    for i in 0..32 {
        p[i] = bytes[i];
    }
    p
}

fn data_pins(bytes: [u8; 4096]) -> [u8; 8] {
    [
        bytes[0], bytes[1], bytes[2], bytes[3], bytes[4], bytes[5], bytes[6], bytes[7],
    ]
}

fn run_board(rt: &impl Print, kind: u8, line: &[u8], bytes: [u8; 4096]) -> io::Result<()> {
    match kind {
        b'd' => mangling::run_demangle(rt, line, &data_pins(bytes)),
        b'g' => mangling::run_mangle(rt, false, line, board_pins(bytes)),
        _ => mangling::run_mangle(rt, true, line, board_pins(bytes)),
    }
}

fn run_bytes(
    rt: &impl Print,
    kind: u8,
    line: &[u8],
    bytes: [u8; 4096],
    n: usize,
) -> io::Result<()> {
    if 4096 < n {
        return Ok(());
    }
    let image = &bytes[..n];
    match kind {
        b'r' => run_runtime(rt, image, lines::number(line, 0)),
        b'e' => run_extra_info(rt, line, image),
        _ => run_record(rt, kind, line, image),
    }
}

// How many numbers stand between a kind and its bytes.
fn numbers_of(kind: u8) -> usize
    ensures { result < 16 }
{
    match kind {
        b'r' => 1,
        b'g' => 9,
        b'G' => 8,
        b'e' => 6,
        _ => 2,
    }
}

fn run_line(rt: &impl Print, line: &[u8]) -> io::Result<()> {
    let kind = le::u8_at(line, 0);
    let mut bytes = [0u8; 4096];
    let n = lines::decode(line, numbers_of(kind), &mut bytes);
    match kind {
        b'd' | b'g' | b'G' => run_board(rt, kind, line, bytes)?,
        _ => run_bytes(rt, kind, line, bytes, n)?,
    }
    show::end(rt)
}

fn run_all(rt: &impl Print, input: &[u8]) -> io::Result<()> {
    let mut at = 0;
    while at < input.len() {
        let end = lines::line_end(input, at);
        run_line(rt, &input[at..end])?;
        at = end;
        if at < input.len() {
            at += 1;
        }
    }
    Ok(())
}

fn main(rt: HostRuntime) -> io::Result<()> {
    let mut input = input_space();
    let n = read_full(&mut rt.reader(), &mut input)?;
    run_all(&rt, &input[..n])
}
