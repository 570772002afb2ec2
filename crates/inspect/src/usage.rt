// What the program is called with.
pub const TEXT: &[u8] = b"\
inspect KEPT [--queue FILE] [--table FILE] [--events FILE] [--features HH]
inspect --help

Tells in words what a dump holds, and what a run would do with it. No file is written.

  KEPT           the kept memory: little-endian 64-bit words
  --queue FILE   the guest's command queue: 16 bytes a slot
  --table FILE   the second table, of regions: little-endian 64-bit words;
                 without it a run is played with a table of one empty row
  --events FILE  the recorder: little-endian 64-bit words
  --features HH  what the emulated unit has, two hexadecimal digits: the sum of
                 01 S1P, 02 S2P, 04 ASID16, 08 VMID16, 10 Hyp, 20 RIL, 40 DPT and 80 E2H;
                 without it 05 is assumed, and the first line says so.
                 They decide which commands are legal

KEPT comes first. Rows, regions and slots are counted from 0.
";
