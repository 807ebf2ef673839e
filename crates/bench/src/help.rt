// The help, on one screen; and the version.
pub(crate) const HELP: &str = "bench: says what the flash of a One ROM board holds\n\n  \
        bench [FILE]                           firmware, pins, sets, ROMs, same sets\n  \
        bench FILE read SET [LEVELS]           a set's bytes as its socket has them\n  \
        bench FILE raw SET                     a set's bytes as they are stored\n  \
        bench FILE byte SET ADDRESS [LEVELS]   one byte as the socket has it\n  \
        bench help, bench --version            this page; the version\n\n\
        FILE     a dump of the flash, at most 2 MiB, - for standard input; a report\n         \
        without it shows the sample board, samples/rp2350.img\n\
        SET      a set's number; numbers are decimal, or hexadecimal after 0x\n\
        ADDRESS  from 0 to the last of the set's first ROM type\n\
        LEVELS   which lines are high, as cs1=1,x2=0 (of cs1 cs2 cs3 x1 x2); those\n         \
        not named are low, and so are all with the word low\n\n  \
        --machine         one fact to a line, ok or refused N first (docs/BENCH.md)\n  \
        --flash-base N    the address of the dump's first byte (0x08000000)\n  \
        --cs0-base N      that address for an RP2350 (0x10000000)\n  \
        --info-offset N   where the info header starts in the dump (512)\n  \
        --by-set-0        read and byte go by set 0's ROM count and type, not SET's\n\n\
        Sets are the same where size, ROM count, serving and types agree; the report\n\
        says if names and bytes do. Messages: standard error. Exit status: 0 an answer;\n\
        1 none, or not whole; 2 words not understood.\n";

// The version of include/onerom.h.
pub(crate) const VERSION: &str = "bench 3.0\n";
