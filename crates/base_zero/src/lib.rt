// Base-zero: the pins of a record, counted from the least of them (info.rs `base_zero`).
#![tactic(auto)]

ghost use Rattle.std.specs.Prelude.{◌≡◌, map};
ghost use Rattle.base.specs.Choice.{pick};
ghost use Rattle.least_pin.specs.LeastPin.{has24};
ghost use Rattle.base_zero.specs.BaseZero.{lowered, lowered_by, base_zero};

use board::BoardPins;
use least_pin::least_pin;

#[tactic(auto, unfolding(crate::specs::BaseZero::lowered))]
pub fn lower(m: u8, p: u8) -> u8
    ensures { result ≡ lowered m p }
{
    if p == 255 { p } else { p.saturating_sub(m) }
}

// Not by an array's `map`, whose contract speaks of the closure's calls one by one: the list as a whole does not follow from it here.
#[tactic(auto, using(crate::proofs::Steps::map_on, crate::proofs::Steps::map_end))]
fn lower_all(m: u8, ps: [u8; 16]) -> [u8; 16]
    ensures { result ≡ map (lowered m) ps }
{
    let mut to = ps;
    for p in to.iter_mut() {
        *p = lower(m, *p);
    }
    to
}

// What the control pins go down by, where m is the least pin.
pub fn control_least(m: u8, pins: BoardPins) -> u8
    ensures { result ≡ pick (has24 pins) m 0 }
{
    if pins.rom_pins == 24 { m } else { 0 }
}

// The address pins go down by m, the control pins by k.
#[tactic(auto, unfolding(crate::specs::BaseZero::lowered_by))]
fn lowered_by(m: u8, k: u8, pins: BoardPins) -> BoardPins
    ensures { result ≡ lowered_by m k pins }
{
    BoardPins {
        addr: lower_all(m, pins.addr),
        cs1: lower(k, pins.cs1),
        cs2: lower(k, pins.cs2),
        cs3: lower(k, pins.cs3),
        x1: lower(k, pins.x1),
        x2: lower(k, pins.x2),
        ce: lower(k, pins.ce),
        oe: lower(k, pins.oe),
        ..pins
    }
}

#[tactic(auto, unfolding(crate::specs::BaseZero::base_zero))]
pub fn base_zero(pins: BoardPins) -> BoardPins
    ensures { result ≡ base_zero pins }
{
    let m = least_pin(pins);
    lowered_by(m, control_least(m, pins), pins)
}
