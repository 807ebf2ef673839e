// Prints one runtime record, read from standard input, as document 01 fixes it. Everything else goes to standard error.
#![tactic(auto)]

mod help;

ghost use Rattle.std.specs.Prelude.{◌≤◌, length};

use runtime_info::{
    GroupV060, GroupV062, GroupV063, GroupV067, RuntimeVersionedFields, SdrrRuntimeInfo,
    SdrrRuntimeInfoHeader,
};
use std::fmt::Write;
use std::io::Read;
use std::{fmt, io, str};

const RAM_BASE: u32 = 536870912;

fn flag(b: bool) -> u8 {
    if b { 1 } else { 0 }
}

fn print_head(rt: &impl Print, h: SdrrRuntimeInfoHeader) -> io::Result<()> {
    println!(rt;
        "head {} {} {} {} {} {} {}",
        h.image_sel,
        h.rom_set_index,
        h.count_rom_access,
        h.access_count,
        h.access_count_address,
        h.rom_table_ptr,
        h.rom_table_size
    )
}

fn print_v060(rt: &impl Print, g: GroupV060) -> io::Result<()> {
    match g {
        GroupV060::Present(v) => println!(rt;
            "0.6.0 {} {} {} {} {} {} {}",
            flag(v.overclock_enabled),
            flag(v.status_led_enabled),
            flag(v.swd_enabled),
            v.fire_vreg,
            v.ice_freq_mhz,
            v.fire_freq_mhz,
            v.sysclk_mhz
        ),
        GroupV060::Absent => println!(rt; "0.6.0 absent"),
    }
}

fn print_v062(rt: &impl Print, g: GroupV062) -> io::Result<()> {
    match g {
        GroupV062::Present(v) => println!(rt; "0.6.2 {} {}", v.fire_serve_mode, v.bit_mode),
        GroupV062::Absent => println!(rt; "0.6.2 absent"),
    }
}

fn print_v063(rt: &impl Print, g: GroupV063) -> io::Result<()> {
    match g {
        GroupV063::Present(v) => println!(rt;
            "0.6.3 {} {} {}",
            flag(v.rom_dma_copy),
            v.num_data_pins,
            flag(v.force_16_bit)
        ),
        GroupV063::Absent => println!(rt; "0.6.3 absent"),
    }
}

fn print_v067(rt: &impl Print, g: GroupV067) -> io::Result<()> {
    match g {
        GroupV067::Present(v) => println!(rt; "0.6.7 {} {}", v.peri_en, v.limp_mode),
        GroupV067::Absent => println!(rt; "0.6.7 absent"),
    }
}

// Behind a write that failed there is no other, so that a record has no hole.
fn print_fields(rt: &impl Print, f: RuntimeVersionedFields) -> io::Result<()> {
    let v060 = f.v0_6_0;
    let v062 = f.v0_6_2;
    let v063 = f.v0_6_3;
    let v067 = f.v0_6_7;
    print_v060(rt, v060)?;
    print_v062(rt, v062)?;
    print_v063(rt, v063)?;
    print_v067(rt, v067)
}

fn print_record(rt: &impl Print, bytes: &[u8]) -> io::Result<()> {
    match runtime_info::parse_ram(bytes, RAM_BASE) {
        SdrrRuntimeInfo::Parsed(head, fields) => {
            print_head(rt, head)?;
            print_fields(rt, fields)
        }
        SdrrRuntimeInfo::Refused(number) => println!(rt; "refused {number}"),
    }
}

const ROOM: usize = 160;

// An error's words: the room's first bytes, so many. Words that it has no room for are left out.
#[derive(Drop)]
struct Words {
    count: usize,
    room: [u8; ROOM],
    ghost within: { count ≤ 160 },
}

impl fmt::Write for Words {
    fn write_str(&mut self, s: &str) -> fmt::Result {
        for b in s.as_bytes() {
            if self.count < ROOM {
                self.room[self.count] = *b;
                self.count += 1;
            }
        }
        Ok(())
    }
}

// The words without the number that the system gives the error.
fn reason(text: &str) -> &str {
    match text.split_once(" (os error ") {
        Some((words, _)) => words,
        None => text,
    }
}

// Says on standard error what failed, and why.
fn fail(rt: &impl Eprint, what: &str, e: io::Error) -> io::Result<()> {
    let mut words = Words {
        count: 0,
        room: [0; ROOM],
    };
    let _ = write!(words, "{e}");
    let text = str::from_utf8(&words.room[..words.count]).unwrap_or("");
    eprintln!(rt; "runtime: {what}: {}", reason(text))
}

// One read. Where it fails, standard error says why.
fn read_some(rt: &impl Eprint, input: &mut impl Read, space: &mut [u8]) -> usize
    ensures { result ≤ length space.new }
{
    match input.read(space) {
        Ok(n) => n,
        Err(e) => {
            let _ = fail(rt, "standard input could not be read", e);
            0
        }
    }
}

// Reads until the space is full, the input ends or a read fails; what came before that counts.
fn read_record(rt: &impl Eprint, input: &mut impl Read, space: &mut [u8]) -> usize
    ensures { result ≤ length space.new }
{
    let mut done = 0;
    while done < space.len() {
        let more = read_some(rt, input, &mut space[done..]);
        if more == 0 {
            return done;
        }
        done += more;
    }
    done
}

fn main(rt: HostRuntime) {
    if help::is_asked(&rt) {
        let _ = help::help(&rt);
        return;
    }
    if help::is_given(&rt, 1) {
        let _ = eprintln!(rt; "runtime: reads standard input, and no argument but --help counts");
    }
    let mut space = [0u8; 64];
    let n = read_record(&rt, &mut rt.reader(), &mut space);
    if let Err(e) = print_record(&rt, &space[..n]) {
        let _ = fail(&rt, "standard output could not all be written", e);
    }
}
