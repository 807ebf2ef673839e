// The window (document 01): which reads of an image succeed, where the image goes on from an address, and when it is refused whole.
// Addresses and lengths are only compared with differences, so that no sum can overflow.
#![tactic(auto)]

ghost use Rattle.std.specs.Prelude.{◌≡◌, IfOk};
ghost use Rattle.refusal.specs.Refusal.{refused_number};
ghost use Rattle.window.specs.Window.{can_read, on_from, past_window, beyond_window, base_after, pointer_number};

use refusal::Refusal;
use types::McuLine;

// Where the image stands: its base, the base for an Rp2350, and the header's offset.
#[derive(Clone, Copy)]
pub struct Settings {
    pub flash_base: u32,
    pub cs0_base: u32,
    pub info_offset: u32,
}

// An image, and the address of its first byte: what every reader is given.
#[derive(Clone, Copy)]
pub struct Window<'a> {
    pub image: &'a [u8],
    pub base: u32,
}

impl<'a> Window<'a> {
    // Whether a read of n bytes at an address succeeds.
    #[tactic(auto, unfolding(crate::specs::Window::can_read))]
    pub fn can_read(self, address: u64, n: usize) -> bool
        ensures { result ≡ can_read self.entry.image.now self.entry.base address n }
    {
        let base = self.base as u64;
        if address < base || 4294967295 < address {
            return false;
        }
        let offset = (address - base) as usize;
        offset <= self.image.len() && n <= self.image.len() - offset
    }

    // The image from an address on: all of it below the base, and nothing past its end.
    #[tactic(auto, unfolding(crate::specs::Window::on_from))]
    pub fn part_from(self, address: u64) -> &'a [u8]
        ensures { result.now ≡ on_from self.entry.image.now self.entry.base address }
    {
        let offset = address.saturating_sub(self.base as u64) as usize;
        self.image.get(offset..).unwrap_or(&[])
    }

    // A record of n bytes at a pointer: the image from there on.
    #[tactic(auto, unfolding(crate::specs::Window::pointer_number))]
    pub fn record_at(self, ptr: u32, n: usize) -> Result<&'a [u8], Refusal>
        ensures number { refused_number result ≡ pointer_number self.entry.image.now self.entry.base ptr n }
        ensures part { IfOk result (λ s. s.now ≡ on_from self.entry.image.now self.entry.base ptr) }
    {
        if ptr < self.base {
            return Err(Refusal::BelowBase);
        }
        if !self.can_read(ptr as u64, n) {
            return Err(Refusal::Ended);
        }
        Ok(self.part_from(ptr as u64))
    }
}

// Whether a read of n bytes at an address succeeds, of an image and a base.
pub fn can_read(image: &[u8], base: u32, address: u64, n: usize) -> bool
    ensures { result ≡ can_read image.now base address n }
{
    Window { image, base }.can_read(address, n)
}

// The image from an address on, of an image and a base.
pub fn image_from(image: &[u8], base: u32, address: u64) -> &[u8]
    ensures { result.now ≡ on_from image.now base address }
{
    Window { image, base }.part_from(address)
}

// 3, 2 or 0: what n bytes at a pointer are refused with.
pub fn pointer_number(image: &[u8], base: u32, ptr: u32, n: usize) -> u8
    ensures { result ≡ pointer_number image.now base ptr n }
{
    match (Window { image, base }).record_at(ptr, n) {
        Ok(_) => 0,
        Err(refusal) => refusal.number(),
    }
}

// The base plus the image's length exceeds 2^32.
#[tactic(auto, unfolding(crate::specs::Window::past_window))]
pub fn past_window(image: &[u8], base: u32) -> bool
    ensures { result ≡ past_window base image.now }
{
    4294967296 - (base as usize) < image.len()
}

// The window check: either base plus the image's length exceeds 2^32.
pub fn beyond_window(image: &[u8], flash_base: u32, cs0_base: u32) -> bool
    ensures { result ≡ beyond_window flash_base cs0_base image.now }
{
    past_window(image, flash_base) || past_window(image, cs0_base)
}

// The base in force after the header: the CS0 base for Rp2350.
#[tactic(auto, unfolding(types::specs::Types::is_rp2350))]
pub fn base_after(flash_base: u32, cs0_base: u32, line: McuLine) -> u32
    ensures { result ≡ base_after flash_base cs0_base line }
{
    match line {
        McuLine::F401DE => flash_base,
        McuLine::F405 => flash_base,
        McuLine::F411 => flash_base,
        McuLine::F446 => flash_base,
        McuLine::F401BC => flash_base,
        McuLine::Rp2350 => cs0_base,
    }
}
