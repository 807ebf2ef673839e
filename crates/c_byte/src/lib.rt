// What a byte read leaves for C and Rust in the words that it is lent.
#![tactic(auto)]

ghost use Rattle.std.specs.Prelude.{◌≡◌};
ghost use Rattle.c_board.specs.Value.{value_after};

use byte_reads::ByteRead;

// The count always, the byte where it is accepted.
pub fn give(read: ByteRead, count: &mut u32, value: &mut u8) -> u32
    ensures reply { result ≡ read.number }
    ensures count { count.new ≡ read.count }
    ensures value { value.new ≡ value_after read.number read.byte value.old }
{
    *count = read.count;
    if read.number != 0 {
        return read.number as u32;
    }
    *value = read.byte;
    0
}
