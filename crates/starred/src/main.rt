// The starred cases of document 01, run by the calls for C and Rust. Each function's statement is its row of specs/Table.antt.
// What a call is lent holds 9 throughout, so that it shows what was written and what was left.
#![tactic(auto)]

ghost use Rattle.std.specs.Prelude.{◌≡◌, ◌∷◌};
ghost use Rattle.starred.specs.Table.{of_record, of_string, of_byte, of_address, expected};
ghost use Rattle.starred.specs.Table.Case.{R1, R2, R3, R4, T1, T2, T3, D1, D2, M1, M2, M3};

use std::{fmt, io};

// A call's number, and the words that it was lent as it leaves them.
#[derive(Clone, Copy)]
struct Answer<const N: usize> {
    number: u32,
    words: [u32; N],
}

impl<const N: usize> fmt::Display for Answer<N> {
    fn fmt<W: fmt::Write>(&self, f: &mut fmt::Formatter<W>) -> fmt::Result {
        write!(f, "{}", self.number)?;
        for word in &self.words {
            write!(f, " {word}")?;
        }
        Ok(())
    }
}

fn record_answer(record: &[u8]) -> Answer<25>
    ensures { (result.number ∷ result.words) ≡ of_record «record».now }
{
    let mut words = [9u32; 25];
    let number = onerom::onerom_runtime(record, 536870912, &mut words);
    Answer { number, words }
}

fn case_r1() -> Answer<25>
    ensures { (result.number ∷ result.words) ≡ expected R1 }
{
    record_answer(
        b"sdrr\x24\x01\x02\x01\x05\x00\x00\x00\x00\x00\x00\x20\x00\x00\x01\x00\x00\x00\x00\x00\x01\x00\x02\x0b\x96\x00\x2c\x01\x2c\x01\x01\x03",
    )
}

fn case_r2() -> Answer<25>
    ensures { (result.number ∷ result.words) ≡ expected R2 }
{
    record_answer(
        b"sdrr\x24\x01\x02\x01\x05\x00\x00\x00\x00\x00\x00\x20\x00\x00\x01\x00\x00\x00\x00\x00\x01\x00\x02\x0b\x96\x00\x2c\x01\x2c",
    )
}

fn case_r3() -> Answer<25>
    ensures { (result.number ∷ result.words) ≡ expected R3 }
{
    record_answer(
        b"sdrr\x13\x01\x02\x01\x05\x00\x00\x00\x00\x00\x00\x20\x00\x00\x01\x00\x00\x00\x00\x00\x01\x00\x02\x0b\x96\x00\x2c\x01\x2c\x01\x01\x03",
    )
}

fn case_r4() -> Answer<25>
    ensures { (result.number ∷ result.words) ≡ expected R4 }
{
    record_answer(
        b"sdrr\x24\x01\x02\x01\x05\x00\x00\x00\x00\x00\x00\x20\x00\x00\x01\x00\x00\x00\x00\x00\x01\x00\x02\x20\x96\x00\x2c\x01\x2c\x01\x01\x03",
    )
}

fn string_answer(image: &[u8]) -> Answer<{ text::PART_WORDS }>
    ensures { (result.number ∷ result.words) ≡ of_string image.now }
{
    let mut words = [9u32; text::PART_WORDS];
    let number = onerom::onerom_string(image, 134217728, 134217728, &mut words);
    Answer { number, words }
}

fn case_t1() -> Answer<{ text::PART_WORDS }>
    ensures { (result.number ∷ result.words) ≡ expected T1 }
{
    let mut image = [0u8; 64];
    image[0] = 65;
    string_answer(&image)
}

fn case_t2() -> Answer<{ text::PART_WORDS }>
    ensures { (result.number ∷ result.words) ≡ expected T2 }
{
    let mut image = [0u8; 63];
    image[0] = 65;
    string_answer(&image)
}

fn case_t3() -> Answer<{ text::PART_WORDS }>
    ensures { (result.number ∷ result.words) ≡ expected T3 }
{
    let mut image = [0u8; 64];
    image[0] = 0xC0;
    image[1] = 0x80;
    string_answer(&image)
}

fn byte_answer(data: &[u8; 8]) -> Answer<1>
    ensures { (result.number ∷ result.words) ≡ of_byte «data».now }
{
    let mut value = 9u8;
    let number = onerom::onerom_demangle(0, data, 1, &mut value);
    Answer {
        number,
        words: [value as u32],
    }
}

fn case_d1() -> Answer<1>
    ensures { (result.number ∷ result.words) ≡ expected D1 }
{
    let data = [7u8, 6, 5, 4, 3, 2, 1, 0];
    byte_answer(&data)
}

fn case_d2() -> Answer<1>
    ensures { (result.number ∷ result.words) ≡ expected D2 }
{
    let data = [7u8, 6, 5, 8, 3, 2, 1, 0];
    byte_answer(&data)
}

// One set with one ROM, a 2364; CS1 high.
fn address_answer(addr: &[u8; 16], cs1: u8, address: u32) -> Answer<1>
    ensures { (result.number ∷ result.words) ≡ of_address addr.now cs1 address }
{
    let control = [cs1, 255, 255, 255, 255, 255, 255];
    let set_row = [0u32, 0, 0, 1, 0, 0, 0, 0];
    let rom_row = [2u32, 0, 0, 0, 0, 0, 0, 0];
    let levels = [1u8, 0, 0, 0, 0];
    let mut value = 9u32;
    let number = onerom::onerom_mangle(
        0, 24, addr, &control, 1, &set_row, &rom_row, address, &levels, &mut value,
    );
    Answer {
        number,
        words: [value],
    }
}

fn case_m1() -> Answer<1>
    ensures { (result.number ∷ result.words) ≡ expected M1 }
{
    let addr = [0u8, 1, 2, 3, 4, 5, 6, 7, 8, 9, 10, 11, 12, 255, 255, 255];
    address_answer(&addr, 13, 5)
}

fn case_m2() -> Answer<1>
    ensures { (result.number ∷ result.words) ≡ expected M2 }
{
    let addr = [
        8u8, 9, 10, 11, 12, 13, 14, 15, 16, 17, 18, 19, 20, 255, 255, 255,
    ];
    address_answer(&addr, 21, 5)
}

fn case_m3() -> Answer<1>
    ensures { (result.number ∷ result.words) ≡ expected M3 }
{
    let addr = [0u8, 1, 2, 3, 4, 5, 6, 7, 8, 9, 10, 11, 12, 255, 255, 255];
    address_answer(&addr, 13, 8192)
}

// A line of many words, piece by piece.
fn show<const N: usize>(rt: &impl Print, name: &str, answer: Answer<N>) -> io::Result<()> {
    print!(rt; "{name} {}", answer.number)?;
    for word in &answer.words {
        print!(rt; " {word}")?;
    }
    println!(rt)
}

fn main(rt: HostRuntime) -> io::Result<()> {
    show(&rt, "R1", case_r1())?;
    show(&rt, "R2", case_r2())?;
    show(&rt, "R3", case_r3())?;
    show(&rt, "R4", case_r4())?;
    show(&rt, "T1", case_t1())?;
    show(&rt, "T2", case_t2())?;
    show(&rt, "T3", case_t3())?;
    println!(rt; "D1 {}", case_d1())?;
    println!(rt; "D2 {}", case_d2())?;
    println!(rt; "M1 {}", case_m1())?;
    println!(rt; "M2 {}", case_m2())?;
    println!(rt; "M3 {}", case_m3())
}
