// Buffers of words and bytes: filled, summed, compared.
ghost use Rattle.std.specs.Prelude.{◌≡◌, ◌*◌, length};
ghost use Rattle.rows.specs.LentRows.{rom_row_length};

// Each contract gives the length alone, so that no caller's proof computes the list.
pub(crate) fn input_space() -> [u8; 69632]
    ensures { 69632 ≡ length result }
{
    [0; 69632]
}

// Rows of 255 sets, and a tail.
pub(crate) fn set_space() -> [u32; 4096]
    ensures { 4096 ≡ length result }
{
    [0; 4096]
}

// Rows of 255 times 255 ROMs, and a tail.
pub(crate) fn rom_space() -> [u32; 65536 * rows::ROM_WORDS]
    ensures { 65536 * rom_row_length ≡ length result }
{
    [0; 65536 * rows::ROM_WORDS]
}

// What a read of several bytes may fill.
pub(crate) fn byte_space() -> [u8; 4096]
    ensures { 4096 ≡ length result }
{
    [0; 4096]
}

fn word_pattern(i: usize) -> u32 {
    2779096485 + (i % 65536) as u32
}

fn byte_pattern(i: usize) -> u8 {
    90 + (i % 7) as u8
}

// What a lent buffer holds before a call.
pub(crate) fn fill(words: &mut [u32]) {
    for i in 0..words.len() {
        words[i] = word_pattern(i);
    }
}

pub(crate) fn fill_bytes(bytes: &mut [u8]) {
    for i in 0..bytes.len() {
        bytes[i] = byte_pattern(i);
    }
}

// Whether a lent buffer is as it was filled.
pub(crate) fn is_untouched(words: &[u32]) -> bool {
    for i in 0..words.len() {
        if words[i] != word_pattern(i) {
            return false;
        }
    }
    true
}

// A checksum, one number after the other.
pub(crate) fn mix(sum: u32, n: u32) -> u32 {
    ((sum as u64 * 65599 + n as u64) % 4294967291) as u32
}

pub(crate) fn sum(words: &[u32]) -> u32 {
    let mut sum: u32 = 1;
    for word in words {
        sum = mix(sum, *word);
    }
    sum
}

pub(crate) fn byte_sum(bytes: &[u8]) -> u32 {
    let mut sum: u32 = 1;
    for byte in bytes {
        sum = mix(sum, *byte as u32);
    }
    sum
}

// The word at an index, 0 past the end.
pub(crate) fn at(words: &[u32], i: usize) -> u32 {
    if words.len() <= i {
        return 0;
    }
    words[i]
}

// So many words from an index on; none where the buffer does not have them all.
pub(crate) fn part(words: &[u32], from: usize, n: usize) -> &[u32] {
    if words.len() < from {
        return &words[..0];
    }
    if words.len() - from < n {
        return &words[..0];
    }
    &words[from..from + n]
}

// The words from an index on.
pub(crate) fn from(words: &[u32], at: usize) -> &[u32] {
    if words.len() < at {
        return &words[..0];
    }
    &words[at..]
}

pub(crate) fn same_all(a: &[u32], b: &[u32]) -> bool {
    if a.len() != b.len() {
        return false;
    }
    for i in 0..a.len() {
        if a[i] != b[i] {
            return false;
        }
    }
    true
}

// Whether so many words from an index on agree.
pub(crate) fn same(a: &[u32], b: &[u32], from: usize, n: usize) -> bool {
    same_all(part(a, from, n), part(b, from, n))
}

pub(crate) fn same_bytes(a: &[u8], b: &[u8]) -> bool {
    if a.len() != b.len() {
        return false;
    }
    for i in 0..a.len() {
        if a[i] != b[i] {
            return false;
        }
    }
    true
}

// The little-endian words of some bytes.
pub(crate) fn load(words: &mut [u32], bytes: &[u8]) {
    for i in 0..words.len() {
        words[i] = le::u32_at(bytes, 4 * i);
    }
}
