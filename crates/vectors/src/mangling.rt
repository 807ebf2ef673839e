// Mangling and demangling by the calls for C and Rust, on rows of which only set 0's counts and its first ROM row's type are filled in.
use super::{lines, show};
use std::io;

pub(crate) fn run_demangle(rt: &impl Print, line: &[u8], pins: &[u8; 8]) -> io::Result<()> {
    let mut value: u8 = 0;
    let number = onerom::onerom_demangle(
        lines::byte_of(line, 0),
        pins,
        lines::byte_of(line, 1),
        &mut value,
    );
    show::two(rt, number, value as u32)
}

// Five levels from the hexadecimal digits of a number, CS1 the lowest.
fn levels_of(n: u32) -> [u8; 5] {
    [
        (n % 16) as u8,
        (n / 16 % 16) as u8,
        (n / 256 % 16) as u8,
        (n / 4096 % 16) as u8,
        (n / 65536 % 16) as u8,
    ]
}

fn address_pins(p: [u8; 32]) -> [u8; 16] {
    [
        p[9], p[10], p[11], p[12], p[13], p[14], p[15], p[16], p[17], p[18], p[19], p[20], p[21],
        p[22], p[23], p[24],
    ]
}

fn control_pins(p: [u8; 32]) -> [u8; 7] {
    [p[25], p[26], p[27], p[28], p[29], p[30], p[31]]
}

fn mangle_one(
    rt: &impl Print,
    line: &[u8],
    p: [u8; 32],
    sets: &[u32],
    roms: &[u32],
    levels: u32,
) -> io::Result<()> {
    let mut value: u32 = 0;
    let number = onerom::onerom_mangle(
        lines::byte_of(line, 0),
        p[0],
        &address_pins(p),
        &control_pins(p),
        lines::number(line, 1),
        sets,
        roms,
        lines::number(line, 7),
        &levels_of(levels),
        &mut value,
    );
    show::two(rt, number, value)
}

// All 32 levels, CS1 changing fastest.
fn mangle_all(
    rt: &impl Print,
    line: &[u8],
    p: [u8; 32],
    sets: &[u32],
    roms: &[u32],
) -> io::Result<()> {
    for i in 0..32u32 {
        let levels = i % 2
            + i / 2 % 2 * 16
            + i / 4 % 2 * 256
            + i / 8 % 2 * 4096
            + i / 16 % 2 * 65536;
        mangle_one(rt, line, p, sets, roms, levels)?;
        show::gap(rt)?;
    }
    Ok(())
}

fn set_words(line: &[u8]) -> [u32; 64] {
    let mut words = [0u32; 64];
    words[2] = lines::number(line, 4);
    words[3] = lines::number(line, 5);
    words
}

fn rom_words(line: &[u8]) -> [u32; 512] {
    let mut words = [0u32; 512];
    let at = rows::ROM_WORDS * (lines::number(line, 4) as usize);
    if at + rows::ROM_WORDS <= 512 {
        words[at] = lines::number(line, 6);
    }
    words
}

pub(crate) fn run_mangle(rt: &impl Print, all: bool, line: &[u8], p: [u8; 32]) -> io::Result<()> {
    let sets = set_words(line);
    let roms = rom_words(line);
    let s = lines::number(line, 2) as usize;
    let r = lines::number(line, 3) as usize;
    if 64 < s {
        return Ok(());
    }
    if 512 < r {
        return Ok(());
    }
    if all {
        mangle_all(rt, line, p, &sets[..s], &roms[..r])
    } else {
        mangle_one(rt, line, p, &sets[..s], &roms[..r], lines::number(line, 8))
    }
}
