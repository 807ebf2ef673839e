// The pins.
use super::refused;
use bench_form::{Numbers, Pin, Pins, Port};
use bench_out::Out;
use pins::{PinsItem, SdrrPins};
use std::fmt;
use std::fmt::Write;

fn ports_for_person(out: &mut Out, p: SdrrPins) -> fmt::Result {
    let rom_pins = p.rom_pins;
    let data = Port(p.data_port);
    let addr = Port(p.addr_port);
    let cs = Port(p.cs_port);
    let sel = Port(p.sel_port);
    let status = Port(p.status_port);
    writeln!(
        out,
        "Pins               {rom_pins}-pin ROM; ports: data {data}, address {addr},"
    )?;
    writeln!(
        out,
        "                   CS {cs}, select {sel}, status {status}"
    )
}

// Arrays by value: so their lengths are known.
fn lists_for_person(out: &mut Out, data: [u8; 8], addr: [u8; 16]) -> fmt::Result {
    let (low, high) = addr.split_at(8);
    writeln!(out, "                   data 0 to 7:{}", Pins(&data))?;
    writeln!(out, "                   address 0 to 7:{}", Pins(low))?;
    writeln!(out, "                   address 8 to 15:{}", Pins(high))
}

fn for_person(out: &mut Out, p: SdrrPins) -> fmt::Result {
    ports_for_person(out, p)?;
    let data = p.data;
    let addr = p.addr;
    lists_for_person(out, data, addr)?;
    let cs1 = Pin(p.cs1);
    let cs2 = Pin(p.cs2);
    let cs3 = Pin(p.cs3);
    let x1 = Pin(p.x1);
    let x2 = Pin(p.x2);
    writeln!(
        out,
        "                   CS1 {cs1}, CS2 {cs2}, CS3 {cs3}, X1 {x1}, X2 {x2},"
    )?;
    let ce = Pin(p.ce);
    let oe = Pin(p.oe);
    let status = Pin(p.status);
    writeln!(out, "                   CE {ce}, OE {oe}, status {status}")
}

fn ports_for_script(out: &mut Out, p: SdrrPins) -> fmt::Result {
    let ports = [
        ("data", p.data_port),
        ("addr", p.addr_port),
        ("cs", p.cs_port),
        ("sel", p.sel_port),
        ("status", p.status_port),
    ];
    for (key, port) in ports {
        writeln!(out, "pins.port.{key} {}", Port(port))?;
    }
    Ok(())
}

// The pins that stand by themselves, under their keys.
fn single_pins(out: &mut Out, pins: &[(&str, u8)]) -> fmt::Result {
    for (key, pin) in pins {
        writeln!(out, "pins.{key} {pin}")?;
    }
    Ok(())
}

// A script is told all that the record holds: further data and address pins too.
fn for_script(out: &mut Out, p: SdrrPins) -> fmt::Result {
    write!(out, "pins.number 0\npins.rom_pins {}\n", p.rom_pins)?;
    ports_for_script(out, p)?;
    let data = p.data;
    let addr = p.addr;
    write!(
        out,
        "pins.data{}\npins.addr{}\n",
        Numbers(&data),
        Numbers(&addr)
    )?;
    single_pins(
        out,
        &[
            ("cs1", p.cs1),
            ("cs2", p.cs2),
            ("cs3", p.cs3),
            ("x1", p.x1),
            ("x2", p.x2),
            ("ce", p.ce),
            ("oe", p.oe),
            ("status", p.status),
        ],
    )?;
    let sel = [p.sel0, p.sel1, p.sel2, p.sel3, p.sel4, p.sel5, p.sel6];
    writeln!(out, "pins.sel{}", Numbers(&sel))?;
    single_pins(
        out,
        &[
            ("x_pull", p.x_jumper_pull),
            ("sel_pull", p.sel_jumper_pull),
            ("swclk", p.swclk_sel),
            ("swdio", p.swdio_sel),
            ("extended", p.extended),
        ],
    )?;
    let data = p.data2;
    let addr = p.addr2;
    write!(
        out,
        "pins.data2{}\npins.addr2{}\n",
        Numbers(&data),
        Numbers(&addr)
    )
}

pub(crate) fn pins(out: &mut Out, i: PinsItem) -> fmt::Result {
    let p = i.pins;
    if i.number != 0 {
        return refused(out, "Pins", "pins", i.number);
    }
    if out.is_script() {
        for_script(out, p)
    } else {
        for_person(out, p)
    }
}
