// The bench: what the flash of a One ROM board holds, for a person or a script. Bytes of its sets are another program's, bench_bytes, so that
// a report waits for no proof of mangling. Each function that answers says the status that the program ends with.
#![tactic(auto)]

mod help;

use bench_args::{Command, Request};

// Help and the version are plain text in every form.
fn done(rt: HostRuntime, request: Request) -> u8 {
    if request.help {
        return bench_refuse::page(rt, help::HELP);
    }
    if request.version {
        return bench_refuse::page(rt, help::VERSION);
    }
    match request.command {
        Err(refused) => bench_open::refuse(rt, request, refused),
        Ok(Command::Help) => bench_refuse::page(rt, help::HELP),
        Ok(Command::Report) => bench_open::answer(rt, request, bench_page::report),
        Ok(_) => bench_refuse::other_program(rt, request),
    }
}

fn main(rt: HostRuntime) {
    let request = bench_args::parse(&rt);
    let status = done(rt, request);
    bench_refuse::tell(rt, request, status);
}
