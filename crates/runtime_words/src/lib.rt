// The runtime record as 25 words, for C and Rust.
#![tactic(auto)]

ghost use Rattle.std.specs.Prelude.{◌≡◌};
ghost use Rattle.runtime_info.specs.Words.{bit, head_words, words060, words062, words063, words067, runtime_words};

use runtime_info::{
    GroupV060, GroupV062, GroupV063, GroupV067, RuntimeVersionedFields, SdrrRuntimeInfoHeader,
};

fn bit_of(b: bool) -> u32
    ensures { result ≡ bit b }
{
    if b { 1 } else { 0 }
}

#[tactic(auto, unfolding(runtime_info::specs::Words::head_words))]
fn head_words(h: SdrrRuntimeInfoHeader) -> [u32; 7]
    ensures { result ≡ head_words h }
{
    [
        h.image_sel as u32,
        h.rom_set_index as u32,
        h.count_rom_access as u32,
        h.access_count,
        h.access_count_address,
        h.rom_table_ptr,
        h.rom_table_size,
    ]
}

#[tactic(auto, unfolding(runtime_info::specs::Words::words060))]
fn v060_words(g: GroupV060) -> [u32; 8]
    ensures { result ≡ words060 g }
{
    match g {
        GroupV060::Present(v) => [
            1,
            bit_of(v.overclock_enabled),
            bit_of(v.status_led_enabled),
            bit_of(v.swd_enabled),
            v.fire_vreg as u32,
            v.ice_freq_mhz as u32,
            v.fire_freq_mhz as u32,
            v.sysclk_mhz as u32,
        ],
        GroupV060::Absent => [0, 0, 0, 0, 0, 0, 0, 0],
    }
}

#[tactic(auto, unfolding(runtime_info::specs::Words::words062))]
fn v062_words(g: GroupV062) -> [u32; 3]
    ensures { result ≡ words062 g }
{
    match g {
        GroupV062::Present(v) => [1, v.fire_serve_mode as u32, v.bit_mode as u32],
        GroupV062::Absent => [0, 0, 0],
    }
}

#[tactic(auto, unfolding(runtime_info::specs::Words::words063))]
fn v063_words(g: GroupV063) -> [u32; 4]
    ensures { result ≡ words063 g }
{
    match g {
        GroupV063::Present(v) => [
            1,
            bit_of(v.rom_dma_copy),
            v.num_data_pins as u32,
            bit_of(v.force_16_bit),
        ],
        GroupV063::Absent => [0, 0, 0, 0],
    }
}

#[tactic(auto, unfolding(runtime_info::specs::Words::words067))]
fn v067_words(g: GroupV067) -> [u32; 3]
    ensures { result ≡ words067 g }
{
    match g {
        GroupV067::Present(v) => [1, v.peri_en as u32, v.limp_mode as u32],
        GroupV067::Absent => [0, 0, 0],
    }
}

pub fn runtime_words(h: SdrrRuntimeInfoHeader, f: RuntimeVersionedFields) -> [u32; 25]
    ensures { result ≡ runtime_words h f }
{
    let v060 = f.v0_6_0;
    let v062 = f.v0_6_2;
    let v063 = f.v0_6_3;
    let v067 = f.v0_6_7;
    let a = head_words(h);
    let b = v060_words(v060);
    let c = v062_words(v062);
    let d = v063_words(v063);
    let e = v067_words(v067);
    [
        a[0], a[1], a[2], a[3], a[4], a[5], a[6], b[0], b[1], b[2], b[3], b[4], b[5], b[6], b[7],
        c[0], c[1], c[2], d[0], d[1], d[2], d[3], e[0], e[1], e[2],
    ]
}
