// What the info header holds: firmware and microcontroller, the commit, the flags.
use bench_form::{Line, Numbers, Storage, kib, on_off};
use bench_out::{Out, Shown};
use header::SdrrInfoFields;
use std::fmt;
use std::fmt::Write;

// The commit's characters up to a NUL, each a byte by itself.
#[derive(Clone, Copy)]
struct Commit([u8; 8]);

impl fmt::Display for Commit {
    fn fmt<W: fmt::Write>(&self, f: &mut fmt::Formatter<W>) -> fmt::Result {
        for b in self.0 {
            if b == 0 {
                return Ok(());
            }
            write!(f, "{}", Shown(&[b]))?;
        }
        Ok(())
    }
}

pub(crate) fn firmware(out: &mut Out, fields: SdrrInfoFields) -> fmt::Result {
    let version = fields.version;
    let major = version.major;
    let minor = version.minor;
    let patch = version.patch;
    let build = version.build;
    let line = Line(fields.stm_line);
    let storage = fields.stm_storage;
    let kib = kib(storage);
    let storage = Storage(storage);
    let mhz = fields.freq;
    let commit = Commit(fields.commit);
    if out.is_script() {
        write!(
            out,
            "firmware.version {major}.{minor}.{patch}\nfirmware.build {build}\n"
        )?;
        write!(
            out,
            "mcu.line {line}\nmcu.storage {storage}\nmcu.kib {kib}\nmcu.mhz {mhz}\n"
        )?;
        return writeln!(out, "firmware.commit {commit}");
    }
    writeln!(
        out,
        "Firmware           {major}.{minor}.{patch} build {build}"
    )?;
    writeln!(
        out,
        "Microcontroller    {line}, storage {storage} ({kib} KiB), {mhz} MHz"
    )?;
    writeln!(out, "Commit             {commit}")
}

fn flags_for_script(out: &mut Out, f: SdrrInfoFields) -> fmt::Result {
    let flags = [
        ("overclock", f.overclock),
        ("swd", f.swd_enabled),
        ("preload", f.preload_image_to_ram),
        ("bootloader", f.bootloader_capable),
        ("led", f.status_led_enabled),
        ("boot_logging", f.boot_logging_enabled),
        ("mco", f.mco_enabled),
        ("access_count", f.count_rom_access),
    ];
    for (key, is_on) in flags {
        writeln!(out, "flag.{key} {}", is_on as u8)?;
    }
    let boot_config = f.boot_config;
    writeln!(out, "boot_config{}", Numbers(&boot_config))
}

fn flags_for_person(out: &mut Out, f: SdrrInfoFields) -> fmt::Result {
    let overclock = on_off(f.overclock);
    let swd = on_off(f.swd_enabled);
    let preload = on_off(f.preload_image_to_ram);
    let bootloader = on_off(f.bootloader_capable);
    write!(out, "Flags              overclock {overclock}, SWD {swd}, ")?;
    writeln!(out, "preload to RAM {preload}, bootloader {bootloader},")?;
    let led = on_off(f.status_led_enabled);
    let logging = on_off(f.boot_logging_enabled);
    let mco = on_off(f.mco_enabled);
    let access = on_off(f.count_rom_access);
    write!(
        out,
        "                   status LED {led}, boot logging {logging}, "
    )?;
    writeln!(out, "MCO {mco}, access count {access}")?;
    let [a, b, c, d] = f.boot_config;
    writeln!(
        out,
        "Boot config        {a:#04x} {b:#04x} {c:#04x} {d:#04x}"
    )
}

pub(crate) fn flags(out: &mut Out, f: SdrrInfoFields) -> fmt::Result {
    if out.is_script() {
        flags_for_script(out, f)
    } else {
        flags_for_person(out, f)
    }
}
