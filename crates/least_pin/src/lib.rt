// The least pin of a record, from which base-zero counts (info.rs `base_zero`).
#![tactic(auto)]

ghost use Rattle.std.specs.Prelude.{◌≡◌};
ghost use Rattle.least_pin.specs.LeastPin.{least_of, least_pin};
ghost use Rattle.least_pin.specs.Laws.{least_of_four};

use board::BoardPins;

#[tactic(auto, using(crate::specs::Laws::min_is))]
fn least_of_four(a: u8, b: u8, c: u8, d: u8) -> u8
    ensures { result ≡ least_of_four a b c d }
{
    a.min(b).min(c.min(d))
}

// In pairs and not by `iter().min()`, for speed: in a chain each comparison waits for the one before.
fn least_address(a: [u8; 16]) -> u8
    ensures { result ≡ least_of a 255 }
{
    let m0 = least_of_four(a[0], a[1], a[2], a[3]);
    let m1 = least_of_four(a[4], a[5], a[6], a[7]);
    let m2 = least_of_four(a[8], a[9], a[10], a[11]);
    let m3 = least_of_four(a[12], a[13], a[14], a[15]);
    least_of_four(m0, m1, m2, m3)
}

// Base-zero goes by the record's own byte and not by the type.
#[tactic(auto, unfolding(crate::specs::LeastPin::least_pin, crate::specs::LeastPin::least_of))]
pub fn least_pin(pins: BoardPins) -> u8
    ensures { result ≡ least_pin pins }
{
    let addr = pins.addr;
    let m = least_address(addr);
    if pins.rom_pins != 24 {
        return m;
    }
    let k = least_of_four(pins.cs1, pins.cs2, pins.cs3, m);
    let l = least_of_four(pins.x1, pins.x2, pins.ce, pins.oe);
    k.min(l)
}
