// What both programs of the bench begin with: the dump is read and opened, and what it holds is handed on. The status that the program ends with is
// the answer's own, or a refusal's.
#![tactic(auto)]

use bench_args::Request;
use bench_args::reason::Refused;
use bench_refuse::Asked;
use bench_rows::Opened;
use sdrr_info::SdrrInfo;
use window::Settings;

fn open<F: FnOnce(Asked, Opened<'_>, SdrrInfo) -> u8>(
    asked: Asked,
    settings: Settings,
    image: &[u8],
    answer: F,
) -> u8
    requires { F.IsAlwaysCallable answer }
{
    let mut set_rows = bench_rows::set_space();
    let mut rom_rows = bench_rows::rom_space();
    let opening = fw_parser::parse_flash(image, settings, &mut set_rows, &mut rom_rows);
    if opening.number != 0 {
        return asked.opening(opening.number, image);
    }
    let opened = Opened {
        image,
        board: sdrr_info::board(settings, opening.info),
        set_rows: &set_rows,
        rom_rows: &rom_rows,
    };
    answer(asked, opened, opening.info)
}

/// The answer to what is asked of a dump.
pub fn answer<F: FnOnce(Asked, Opened<'_>, SdrrInfo) -> u8>(
    rt: HostRuntime,
    request: Request,
    answer: F,
) -> u8
    requires { F.IsAlwaysCallable answer }
{
    let asked = bench_refuse::how(rt, request);
    let mut space = bench_file::image_space();
    match bench_file::load(&rt, request.files, &mut space) {
        Ok(image) => open(asked, bench_args::given::settings(request), image, answer),
        Err(unread) => asked.part(unread.number(), ""),
    }
}

/// The answer to words that are not understood.
pub fn refuse(rt: HostRuntime, request: Request, refused: Refused) -> u8 {
    bench_refuse::arguments(
        bench_refuse::how(rt, request),
        refused.reason.number(),
        refused.about,
    )
}
