// The bench's other program: bytes of a board's sets, as a socket has them or as they are stored. Each function that answers says the status that
// the program ends with.
#![tactic(auto)]

use bench_args::{Command, Request, given};
use bench_reads::SetRead;
use bench_refuse::Asked;
use bench_rows::Opened;

fn bytes(asked: Asked, opened: Opened, command: Command, request: Request) -> u8 {
    match command {
        Command::Raw { set } => SetRead { asked, opened, set }.raw(),
        Command::Read { set, levels } => {
            SetRead { asked, opened, set }.read(given::cs_set(levels))
        }
        Command::Byte {
            set,
            address,
            levels,
        } => SetRead { asked, opened, set }.byte(address, given::cs_set(levels)),
        Command::Report | Command::Help => bench_refuse::other_program(asked.rt, request),
    }
}

fn done(rt: HostRuntime, request: Request) -> u8 {
    match request.command {
        Err(refused) => bench_open::refuse(rt, request, refused),
        Ok(Command::Report | Command::Help) => bench_refuse::other_program(rt, request),
        Ok(command) => bench_open::answer(
            rt,
            request,
            |asked, opened, _| bytes(asked, opened, command, request),
        ),
    }
}

fn main(rt: HostRuntime) {
    let request = bench_args::parse(&rt);
    let status = done(rt, request);
    bench_refuse::tell(rt, request, status);
}
