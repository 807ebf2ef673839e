// A record of the input: ten words, then the image, of a history the eight counts that it starts from, then what its kind has.

// The word k of a record.
pub(crate) fn word(record: &[u8], k: u8) -> u32 {
    le::u32_at(record, 4 * (k as usize))
}

// So many bytes from an index on; none where the record does not have them all.
pub(crate) fn part(record: &[u8], from: usize, n: usize) -> &[u8] {
    if record.len() < from {
        return &record[..0];
    }
    if record.len() - from < n {
        return &record[..0];
    }
    &record[from..from + n]
}

// The image, whose length is word 6.
pub(crate) fn image(record: &[u8]) -> &[u8] {
    part(record, 40, word(record, 6) as usize)
}

// Whether its calls are a history: 32 is added to its kind.
pub(crate) fn is_history(record: &[u8]) -> bool {
    let kind = word(record, 0);
    base::either(kind == 98, kind == 108)
}

// Whether its report and rows are lent, and not an opening's.
pub(crate) fn is_lent(record: &[u8]) -> bool {
    let kind = word(record, 0);
    base::either(kind == 76, kind == 108)
}

fn behind_image(record: &[u8]) -> &[u8] {
    from(record, 40 + word(record, 6) as usize)
}

// The bytes that start with a history's counts.
pub(crate) fn counts(record: &[u8]) -> &[u8] {
    behind_image(record)
}

// What comes behind the image and a history's counts.
pub(crate) fn rest(record: &[u8]) -> &[u8] {
    let bytes = behind_image(record);
    if is_history(record) {
        return from(bytes, 32);
    }
    bytes
}

// The calls, so many as word 7 says, 16 bytes each.
pub(crate) fn calls(record: &[u8]) -> &[u8] {
    part(rest(record), 0, 16 * (word(record, 7) as usize))
}

// How many cuts there are: word 8, and where that is FFFFFFFF one of every length.
pub(crate) fn cuts(record: &[u8]) -> u32 {
    let n = word(record, 8);
    if n == 4294967295 {
        return word(record, 6) % 65536 + 1;
    }
    n
}

// The length of the cut k: a word behind the calls, or k.
pub(crate) fn cut(record: &[u8], k: u32) -> u32 {
    if word(record, 8) == 4294967295 {
        return k;
    }
    let from = 16 * (word(record, 7) as usize);
    le::u32_at(rest(record), from + 4 * (k as usize))
}

// The image cut short to so many bytes; none where it does not have them.
pub(crate) fn cut_image(record: &[u8], n: u32) -> &[u8] {
    part(image(record), 0, n as usize)
}

// The bytes from an index on.
pub(crate) fn from(bytes: &[u8], at: usize) -> &[u8] {
    if bytes.len() < at {
        return &bytes[..0];
    }
    &bytes[at..]
}
