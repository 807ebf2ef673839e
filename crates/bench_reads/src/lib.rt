// Bytes of a set: as a socket would see them, as they are stored, and one by itself. Each call says the status that the program ends with.
// A socket's bytes go by the set's own ROM count and first type; where it is asked for, by set 0's. The reads are all job 0's, each on counts of its
// own, which start at 0.
#![tactic(auto)]

ghost use Rattle.std.specs.Prelude.{◌≤◌, ◌≡◌, length, IfOk};

use bench_out::{Out, Stream};
use bench_refuse::Asked;
use bench_rows::Opened;
use info::SdrrAddress;
use job_counts::JOBS;
use std::fmt;
use std::fmt::Write;
use types::SdrrCsSet;

const JOB: u32 = 0;

// How many bytes of a set are written at a time.
const PIECE: usize = 65536;

// 131,072 bytes: the addresses of the largest type that can be read so, a 231024.
fn byte_space() -> [u8; 131072]
    ensures { 131072 ≡ length result }
{
    [0; 131072]
}

// Why a read is refused: the number of the set's refusal, or that of the byte at an address.
#[derive(Clone, Copy)]
enum Refused {
    Set(u8),
    Address(u8, u32),
}

// A set of an opened board, and how its bytes are wanted.
#[derive(Clone, Copy)]
pub struct SetRead<'a> {
    pub asked: Asked,
    pub opened: Opened<'a>,
    pub set: u32,
}

impl<'a> SetRead<'a> {
    // What a refusal says of the set that a read goes by.
    fn by(&self) -> &'static str {
        if self.asked.by_set_0 {
            ", by set 0"
        } else {
            ""
        }
    }

    // The set whose ROM count and first type a read goes by.
    fn by_set(&self) -> u32 {
        if self.asked.by_set_0 { 0 } else { self.set }
    }

    fn refused(&self, why: Refused) -> u8 {
        let set = self.set;
        let by = self.by();
        match why {
            Refused::Set(number) => self.asked.part(number, format_args!(", set {set}{by}")),
            Refused::Address(number, at) => {
                self.asked.part(number, format_args!(", set {set}, address {at:#010x}{by}"))
            }
        }
    }

    // 80: no such set. It comes before all else, so that 71 is never said of a board without sets.
    fn known(&self) -> Result<(), Refused> {
        let opened = &self.opened;
        let board = opened.board;
        let size = set_data::get_rom_set_size(board.served, opened.set_rows, self.set);
        size.map(|_| ())
            .map_err(|refusal| Refused::Set(refusal.number()))
    }

    // The byte at an address as the socket has it; or its refusal's number.
    fn logical_byte(&self, at: u32, cs_set: SdrrCsSet) -> Result<u8, u8> {
        let opened = &self.opened;
        let board = opened.board;
        let set_rows = opened.set_rows;
        let rom_rows = opened.rom_rows;
        let image = opened.image;
        let set = self.set;
        let counts = &mut [0; JOBS];
        let read = if self.asked.by_set_0 {
            let address = SdrrAddress::Logical(at, cs_set);
            job_reads::read_rom_byte_demangled(
                image, board, set_rows, rom_rows, set, address, JOB, counts,
            )
        } else {
            job_reads::read_rom_byte_own(
                image, board, set_rows, rom_rows, set, at, cs_set, JOB, counts,
            )
        };
        match read.number {
            0 => Ok(read.byte),
            number => Err(number),
        }
    }

    // The bytes at addresses 0 to the mask, which ends where the library says 77: how many there are.
    fn fill(&self, cs_set: SdrrCsSet, space: &mut [u8]) -> Result<usize, Refused>
        ensures { IfOk result (λ n. n ≤ length space.new) }
    {
        self.known()?;
        for i in 0..space.len() {
            let at = (i % 4294967296) as u32;
            match self.logical_byte(at, cs_set) {
                Ok(byte) => space[i] = byte,
                Err(77) => return Ok(i),
                Err(number) => return Err(Refused::Address(number, at)),
            }
        }
        Ok(space.len())
    }

    // A script is told which set the bytes were read by, and how many there were; a person only where set 0 was asked for.
    fn beside(&self, length: usize) -> fmt::Result {
        let rt = self.asked.rt;
        let set = self.set;
        let by = self.by_set();
        if self.asked.machine {
            return bench_out::say(
                rt,
                Stream::Error,
                format_args!("ok\nby_set {by}\nbytes {length}\n"),
            );
        }
        if !self.asked.by_set_0 {
            return Ok(());
        }
        let text = format_args!(
            "bench: set {set} is read by set {by}'s ROM count and first type\n"
        );
        bench_out::say(rt, Stream::Error, text)
    }

    // Writes bytes where all could be read.
    fn written(&self, bytes: &[u8]) -> u8 {
        let set = self.set;
        let by = self.by();
        let mut out = self.asked.output();
        let status = self
            .asked
            .ended(out.bytes(bytes), format_args!(", set {set}{by}"));
        if status == 0 && self.beside(bytes.len()).is_err() {
            return 1;
        }
        status
    }

    pub fn read(&self, cs_set: SdrrCsSet) -> u8 {
        let mut space = byte_space();
        match self.fill(cs_set, &mut space) {
            Ok(n) => self.written(&space[..n]),
            Err(why) => self.refused(why),
        }
    }

    // Writes bytes of the set from an offset on, as many as the space holds.
    fn raw_piece(&self, out: &mut Out, offset: u32, space: &mut [u8]) -> fmt::Result {
        let opened = &self.opened;
        let board = opened.board;
        let counts = &mut [0; JOBS];
        let read = job_reads::read_rom_set_data(
            opened.image,
            board,
            opened.set_rows,
            self.set,
            offset,
            space,
            JOB,
            counts,
        );
        if read.number != 0 {
            return Err(fmt::Error);
        }
        out.bytes(space)
    }

    fn raw_pieces(&self, out: &mut Out, size: u32) -> fmt::Result {
        let mut space = [0; PIECE];
        for offset in (0..size).step_by(PIECE) {
            let left = (size - offset) as usize;
            let n = PIECE.min(left);
            prove!(n <= left);
            self.raw_piece(out, offset, &mut space[..n])?;
        }
        Ok(())
    }

    // That the dump holds all of the set is tested before its first byte is written.
    pub fn raw(&self) -> u8 {
        let set = self.set;
        let size = match self.opened.stored(set) {
            Ok(part) => part.length,
            Err(number) => return self.asked.part(number, format_args!(", set {set}")),
        };
        let mut out = self.asked.output();
        let written = self.raw_pieces(&mut out, size);
        let status = self.asked.ended(written, format_args!(", set {set}"));
        if status != 0 || !self.asked.machine {
            return status;
        }
        let told = bench_out::say(
            self.asked.rt,
            Stream::Error,
            format_args!("ok\nbytes {size}\n"),
        );
        told.is_err() as u8
    }

    // Where in the set the byte at an address is stored.
    fn offset_of(&self, at: u32, cs_set: SdrrCsSet) -> u32 {
        let opened = &self.opened;
        let board = opened.board;
        let pins = board.pins;
        let served = board.served;
        let mangled = if self.asked.by_set_0 {
            info::mangle_address(pins, served, opened.set_rows, opened.rom_rows, at, cs_set)
        } else {
            info::mangle_own(
                pins,
                served,
                opened.set_rows,
                opened.rom_rows,
                self.set,
                at,
                cs_set,
            )
        };
        mangled.unwrap_or(0)
    }

    // The byte at an offset, as it is stored.
    fn stored_byte(&self, offset: u32) -> u8 {
        let opened = &self.opened;
        let board = opened.board;
        let place = SdrrAddress::Raw(offset);
        let counts = &mut [0; JOBS];
        let read = job_reads::read_rom_byte_raw(
            opened.image,
            board,
            opened.set_rows,
            opened.rom_rows,
            self.set,
            place,
            JOB,
            counts,
        );
        read.byte
    }

    // A byte, which set it is read by, where in the set it is stored, and as what.
    fn show_byte(&self, out: &mut Out, at: u32, cs_set: SdrrCsSet, byte: u8) -> fmt::Result {
        let set = self.set;
        let by = self.by_set();
        let offset = self.offset_of(at, cs_set);
        let stored = self.stored_byte(offset);
        if out.is_script() {
            write!(
                out,
                "ok\nset {set}\nby_set {by}\naddress {at}\nbyte {byte}\n"
            )?;
            write!(out, "stored.byte {stored}\nstored.offset {offset}\n")?;
        } else {
            let by = if self.asked.by_set_0 { " by set 0" } else { "" };
            write!(out, "set {set}, address {at:#010x}: {byte:#04x}{by} ")?;
            writeln!(out, "(stored as {stored:#04x} at offset {offset:#010x})")?;
        }
        out.end()
    }

    fn byte_at(&self, at: u32, cs_set: SdrrCsSet) -> Result<u8, Refused> {
        self.known()?;
        match self.logical_byte(at, cs_set) {
            Ok(byte) => Ok(byte),
            Err(number) => Err(Refused::Address(number, at)),
        }
    }

    pub fn byte(&self, at: u32, cs_set: SdrrCsSet) -> u8 {
        let byte = match self.byte_at(at, cs_set) {
            Ok(byte) => byte,
            Err(why) => return self.refused(why),
        };
        let mut out = self.asked.output();
        let written = self.show_byte(&mut out, at, cs_set, byte);
        self.asked.ended(written, "")
    }
}
