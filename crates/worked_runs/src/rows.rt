//! Two schedules of a bare world with their transcripts, as in `examples/`: each is what `swp replay` reads, and all that it writes.

pub const ONE_MESSAGE: [&str; 2] = [
    "\
swp 1 bare 02\n\
send 02h 01 03\n\
deliver 02c\n\
deliver 02h\n\
",
    "\
> swp 1 bare 02\n\
up 02c 0\n\
up 02h 0\n\
> send 02h 01 03\n\
sent 02h 0 01 03\n\
emit 02h 808103\n\
> deliver 02c\n\
took 02c 808103\n\
got 02c 0 01 03\n\
emit 02c C1\n\
> deliver 02h\n\
took 02h C1\n\
acked 02h 0 1\n\
done 4\n\
",
];

pub const DAMAGE_THE_CRC_DOES_NOT_SHOW: [&str; 2] = [
    "\
swp 1 bare 02\n\
send 02h 01 03\n\
damage 02c 24 28 35 40\n\
",
    "\
> swp 1 bare 02\n\
up 02c 0\n\
up 02h 0\n\
> send 02h 01 03\n\
sent 02h 0 01 03\n\
emit 02h 808103\n\
",
];
