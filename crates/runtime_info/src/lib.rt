// The runtime record that a running board keeps in RAM (parsing.rs, and parse_ram of lib.rs).
#![tactic(auto)]

ghost use Rattle.std.specs.Prelude.{◌≡◌, ◌+◌, ◌≤◌};
ghost use Rattle.runtime_info.specs.Runtime.{head_of, runtime_header, reaches, is_voltage, is_serve_mode, is_bit_mode, is_limp_mode, present060, present062, present067, group060_of, group062_of, group063_of, group067_of, runtime_fields, runtime_of};

#[derive(Clone, Copy)]
pub struct SdrrRuntimeInfoHeader {
    pub image_sel: u8,
    pub rom_set_index: u8,
    pub count_rom_access: u8,
    pub access_count: u32,
    pub access_count_address: u32,
    pub rom_table_ptr: u32,
    pub rom_table_size: u32,
}

// The record's head, or the number of its refusal.
#[derive(Clone, Copy)]
pub(crate) enum RuntimeHeader {
    Head(SdrrRuntimeInfoHeader),
    Refused(u8),
}

#[derive(Clone, Copy)]
pub struct RuntimeV060 {
    pub overclock_enabled: bool,
    pub status_led_enabled: bool,
    pub swd_enabled: bool,
    pub fire_vreg: u8,
    pub ice_freq_mhz: u16,
    pub fire_freq_mhz: u16,
    pub sysclk_mhz: u16,
}

#[derive(Clone, Copy)]
pub enum GroupV060 {
    Present(RuntimeV060),
    Absent,
}

#[derive(Clone, Copy)]
pub struct RuntimeV062 {
    pub fire_serve_mode: u8,
    pub bit_mode: u8,
}

#[derive(Clone, Copy)]
pub enum GroupV062 {
    Present(RuntimeV062),
    Absent,
}

#[derive(Clone, Copy)]
pub struct RuntimeV063 {
    pub rom_dma_copy: bool,
    pub num_data_pins: u8,
    pub force_16_bit: bool,
}

#[derive(Clone, Copy)]
pub enum GroupV063 {
    Present(RuntimeV063),
    Absent,
}

#[derive(Clone, Copy)]
pub struct RuntimeV067 {
    pub peri_en: u8,
    pub limp_mode: u8,
}

#[derive(Clone, Copy)]
pub enum GroupV067 {
    Present(RuntimeV067),
    Absent,
}

#[derive(Clone, Copy)]
pub struct RuntimeVersionedFields {
    pub v0_6_0: GroupV060,
    pub v0_6_2: GroupV062,
    pub v0_6_3: GroupV063,
    pub v0_6_7: GroupV067,
}

#[derive(Clone, Copy)]
pub enum SdrrRuntimeInfo {
    Parsed(SdrrRuntimeInfoHeader, RuntimeVersionedFields),
    Refused(u8),
}

#[tactic(auto, unfolding(crate::specs::Runtime::head_of))]
fn read_head(data: &[u8], ram_base: u32) -> SdrrRuntimeInfoHeader
    requires { ram_base + 8 ≤ 4294967295 }
    ensures { result ≡ head_of «data».now ram_base }
{
    SdrrRuntimeInfoHeader {
        image_sel: le::u8_at(data, 5),
        rom_set_index: le::u8_at(data, 6),
        count_rom_access: le::u8_at(data, 7),
        access_count: le::u32_at(data, 8),
        access_count_address: ram_base + 8,
        rom_table_ptr: le::u32_at(data, 12),
        rom_table_size: le::u32_at(data, 16),
    }
}

#[tactic(auto, unfolding(crate::specs::Runtime::runtime_header))]
pub(crate) fn parse_and_validate_runtime_info(data: &[u8], ram_base: u32) -> RuntimeHeader
    ensures { result ≡ runtime_header «data».now ram_base }
{
    if data.len() < 20 {
        return RuntimeHeader::Refused(2);
    }
    if !magic::starts_with(data, b"sdrr") {
        return RuntimeHeader::Refused(60);
    }
    if le::u8_at(data, 4) < 20 {
        return RuntimeHeader::Refused(61);
    }
    if 4294967287 < ram_base {
        return RuntimeHeader::Refused(62);
    }
    RuntimeHeader::Head(read_head(data, ram_base))
}

// Whether both the size byte and the slice reach a group's end.
#[tactic(auto, unfolding(crate::specs::Runtime::reaches))]
fn reaches_end(data: &[u8], end: usize) -> bool
    ensures { result ≡ reaches «data».now end }
{
    base::both(end <= le::u8_at(data, 4) as usize, end <= data.len())
}

fn known_fire_vreg(b: u8) -> bool
    ensures { result ≡ is_voltage b }
{
    base::either(b <= 31, base::either(b == 254, b == 255))
}

fn known_fire_serve_mode(b: u8) -> bool
    ensures { result ≡ is_serve_mode b }
{
    b <= 1
}

fn known_bit_mode(b: u8) -> bool
    ensures { result ≡ is_bit_mode b }
{
    base::either(b == 1, b == 2)
}

fn known_limp_mode(b: u8) -> bool
    ensures { result ≡ is_limp_mode b }
{
    b <= 3
}

// Whether the group 0.6.0 is present.
fn has_v060(data: &[u8]) -> bool
    ensures { result ≡ present060 «data».now }
{
    base::both(reaches_end(data, 34), known_fire_vreg(le::u8_at(data, 27)))
}

#[tactic(auto, unfolding(crate::specs::Runtime::group060_of))]
fn group_v060(data: &[u8]) -> GroupV060
    ensures { result ≡ group060_of «data».now }
{
    if !has_v060(data) {
        return GroupV060::Absent;
    }
    GroupV060::Present(RuntimeV060 {
        overclock_enabled: le::flag_at(data, 24),
        status_led_enabled: le::flag_at(data, 25),
        swd_enabled: le::flag_at(data, 26),
        fire_vreg: le::u8_at(data, 27),
        ice_freq_mhz: le::u16_at(data, 28),
        fire_freq_mhz: le::u16_at(data, 30),
        sysclk_mhz: le::u16_at(data, 32),
    })
}

// Whether the group 0.6.2 is present, whatever became of 0.6.0.
fn has_v062(data: &[u8]) -> bool
    ensures { result ≡ present062 «data».now }
{
    let serve = known_fire_serve_mode(le::u8_at(data, 34));
    let bits = known_bit_mode(le::u8_at(data, 35));
    base::both(reaches_end(data, 36), base::both(serve, bits))
}

#[tactic(auto, unfolding(crate::specs::Runtime::group062_of))]
fn group_v062(data: &[u8]) -> GroupV062
    ensures { result ≡ group062_of «data».now }
{
    if !has_v062(data) {
        return GroupV062::Absent;
    }
    GroupV062::Present(RuntimeV062 {
        fire_serve_mode: le::u8_at(data, 34),
        bit_mode: le::u8_at(data, 35),
    })
}

#[tactic(auto, unfolding(crate::specs::Runtime::group063_of))]
fn group_v063(data: &[u8]) -> GroupV063
    ensures { result ≡ group063_of «data».now }
{
    if !reaches_end(data, 39) {
        return GroupV063::Absent;
    }
    GroupV063::Present(RuntimeV063 {
        rom_dma_copy: le::flag_at(data, 36),
        num_data_pins: le::u8_at(data, 37),
        force_16_bit: le::flag_at(data, 38),
    })
}

// Whether the group 0.6.7 is present.
fn has_v067(data: &[u8]) -> bool
    ensures { result ≡ present067 «data».now }
{
    base::both(reaches_end(data, 57), known_limp_mode(le::u8_at(data, 56)))
}

#[tactic(auto, unfolding(crate::specs::Runtime::group067_of))]
fn group_v067(data: &[u8]) -> GroupV067
    ensures { result ≡ group067_of «data».now }
{
    if !has_v067(data) {
        return GroupV067::Absent;
    }
    GroupV067::Present(RuntimeV067 {
        peri_en: le::u8_at(data, 39),
        limp_mode: le::u8_at(data, 56),
    })
}

// Each group stands for itself: one that is absent takes no other with it.
pub fn parse_runtime_versioned_fields(data: &[u8]) -> RuntimeVersionedFields
    ensures { result ≡ runtime_fields «data».now }
{
    RuntimeVersionedFields {
        v0_6_0: group_v060(data),
        v0_6_2: group_v062(data),
        v0_6_3: group_v063(data),
        v0_6_7: group_v067(data),
    }
}

pub fn parse_ram(data: &[u8], ram_base: u32) -> SdrrRuntimeInfo
    ensures { result ≡ runtime_of «data».now ram_base }
{
    match parse_and_validate_runtime_info(data, ram_base) {
        RuntimeHeader::Refused(number) => SdrrRuntimeInfo::Refused(number),
        RuntimeHeader::Head(head) => {
            SdrrRuntimeInfo::Parsed(head, parse_runtime_versioned_fields(data))
        }
    }
}
