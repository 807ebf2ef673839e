// The help, on standard error: standard output is for records.
use std::env::FillError;
use std::io;
use std::rt::Env;

fn is_help(word: &[u8]) -> bool {
    let n = word.len();
    if n == 2 {
        return magic::starts_with(word, b"-h");
    }
    if n == 6 {
        return magic::starts_with(word, b"--help");
    }
    false
}

// A longer argument than there is space for is not help.
fn is_help_at(rt: &impl Env, at: usize) -> bool {
    let mut space = [0u8; 8];
    match rt.arg(at, &mut space) {
        Ok(n) => is_help(&space[..n]),
        Err(_) => false,
    }
}

// Whether there are so many arguments, the program's name aside.
pub(crate) fn is_given(rt: &impl Env, at: usize) -> bool {
    let mut space = [0u8; 8];
    match rt.arg(at, &mut space) {
        Ok(_) => true,
        Err(FillError::TooLong) => true,
        Err(FillError::NotPresent) => false,
    }
}

pub(crate) fn is_asked(rt: &impl Env) -> bool {
    for i in 1..usize::MAX {
        if !is_given(rt, i) {
            return false;
        }
        if is_help_at(rt, i) {
            return true;
        }
    }
    false
}

pub(crate) fn help(rt: &impl Eprint) -> io::Result<()> {
    rt.eprint(
        "runtime: says what the runtime record of a running One ROM board holds\n\n  \
        runtime <FILE    FILE: the record's bytes, as they stand in the board's RAM\n  \
        runtime --help   this page\n\n\
        The record is where a report of bench says, as in 'runtime at 0x20002000'; a\n\
        debug probe reads it. At most 64 bytes count. Five lines are printed, numbers\n\
        decimal, flags 1 or 0:\n\n  \
        head    image, set, counting, access count, its address, ROM table, its size\n  \
        0.6.0   overclock, status LED, SWD, voltage, ice MHz, fire MHz, system MHz\n  \
        0.6.2   serve mode, bit mode\n  \
        0.6.3   DMA copy, data pins, 16 bit forced\n  \
        0.6.7   peripherals enabled, limp mode\n\n\
        A group that the firmware does not have, or with a value that is not known, is\n\
        absent. The count's address is that of a record at 0x20000000. A record that\n\
        cannot be read is one line, 'refused N': 2 fewer than 20 bytes, 60 not sdrr at\n\
        its start, 61 a size byte under 20.\n",
    )
}
