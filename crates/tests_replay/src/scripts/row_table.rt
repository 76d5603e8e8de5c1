//! The worked rows: each a script, and all that it prints.

pub const ROWS: &str = "\
== row_1
client; in c1 P gives
c1 > Q
== row_2
client; in c1 00 (3 times); in c1 04; in c1 41; in c1 00 (2 times); in c1 01 gives
c1 > Q
== row_4
client; server plain; in c1 T5; offer h1 s1; note h2; in s1 R2; settle h3 gives
h1 ticket 1.1.1 / h2 placed 1.1.1 s1 2 / s1 > T2 / noted 1.1.1 / h3 settled 1.1.1 / answered 1.1.1 / c1 > R5
== row_5
client; server probe; route /s/a s1; in c1 T5; place h1 gives
s1 > 0000000f8000000174696e697420636865636b / h1 ticket 1.1.1 / refused NotOpen / answered 1.1.1 / c1 > N5
== row_6
client; in c1 0000000f7f00000174696e697420636865636b; in c1 00000006440000010001 gives
c1 > 0000000f7f00000174696e697420636865636b / c1 > 00000006bc0000010001
== row_7
client; server plain; in c1 T5; offer h1 s1; note h2; in c1 X5; in c1 T5; offer h4 s1; in s1 R2; settle h6; in
s1 R3; settle h7 gives
h1 ticket 1.1.1 / h2 placed 1.1.1 s1 2 / s1 > T2 / noted 1.1.1 / h3 recall 1.1.1 s1 2 / c1 > 00000004be000005 /
h4 ticket 1.1.2 / h5 placed 1.1.2 s1 3 / s1 > T3 / h6 settled 1.1.1 / late 1.1.1 / h7 settled 1.1.2 / answered
1.1.2 / c1 > R5
== row_8a
client; server plain; in c1 T5; in c1 X5; offer h1 s1; note h2; recall h3 gives
h1 ticket 1.1.1 / c1 > 00000004be000005 / h2 placed 1.1.1 s1 2 / s1 > T2 / noted 1.1.1 / h3 recall 1.1.1 s1 2 /
recalled 1.1.1 / s1 > X2
== row_8b
client; server plain; in c1 T5; offer h1 s1; in c1 X5; in s1 R2; settle h3; note h2 gives
h1 ticket 1.1.1 / h2 placed 1.1.1 s1 2 / s1 > T2 / c1 > 00000004be000005 / h3 settled 1.1.1 / late 1.1.1 / noted
1.1.1
== row_9
client (2 times); server plain; in c1 T5; offer h1 s1; note h2; in c1 X5; in s1 R2; in c2 T5; offer h5 s1;
recall h3; settle h4 gives
h1 ticket 1.1.1 / h2 placed 1.1.1 s1 2 / s1 > T2 / noted 1.1.1 / h3 recall 1.1.1 s1 2 / c1 > 00000004be000005 /
h4 settled 1.1.1 / h5 ticket 1.2.1 / h6 placed 1.2.1 s1 2 / s1 > T2 / stale 1.1.1 / late 1.1.1
== row_10
client; server plain; now 1000; in s1 L; now 10999; in c1 T5; offer h1 s1; now 11000; clock s1; in c1 T6; offer
h3 s1; now 5000; offer h3 s1; in s1 L; offer h3 s1 gives
h1 ticket 1.1.1 / h2 placed 1.1.1 s1 2 / s1 > T2 / h3 ticket 1.1.2 / refused Lapsed (2 times) / h4 placed 1.1.2
s1 3 / s1 > T3
== row_10_zero
client; server plain; in s1 0000000d43000000000000000000000000; in c1 T5; offer h1 s1; in s1
0000000d4300000000ffffffffffffffff; offer h1 s1; in s1 L; offer h1 s1 gives
h1 ticket 1.1.1 / refused Lapsed (2 times) / h2 placed 1.1.1 s1 2 / s1 > T2
== row_11
client; server plain; in c1 T5; offer h1 s1; note h2; in s1 0000000440000001; in c1 T6; offer h3 s1; in s1 L;
offer h3 s1; in s1 R2; settle h4 gives
h1 ticket 1.1.1 / h2 placed 1.1.1 s1 2 / s1 > T2 / noted 1.1.1 / s1 > 00000004c0000001 / h3 ticket 1.1.2 /
refused Drained (2 times) / h4 settled 1.1.1 / answered 1.1.1 / c1 > R5
== row_12
client; drain c1; in c1 T5; in c1 00000004c0000001; in c1 T6; drain c1 gives
c1 > 0000000440000001 / h1 ticket 1.1.1 / c1 > N6 / refused AlreadyDraining
== row_12_more
client; drain c1; in c1 T5; in c1 00000004c0000001; in c1 T6; drain c1; server plain; offer h1 s1; note h2; in
s1 R2; settle h3 gives
c1 > 0000000440000001 / h1 ticket 1.1.1 / c1 > N6 / refused AlreadyDraining / h2 placed 1.1.1 s1 2 / s1 > T2 /
noted 1.1.1 / h3 settled 1.1.1 / answered 1.1.1 / c1 > R5
== row_13
client; server plain; in c1 T5; in c1 T6; in c1 T7; offer h1 s1; offer h2 s1; offer h3 s1; note h4; note h5;
note h6; in c1 X6; recall h7; lose s1; next s1 (3 times); fail h8; fail h9; fail h10; next s1 gives
h1 ticket 1.1.1 / h2 ticket 1.1.2 / h3 ticket 1.1.3 / h4 placed 1.1.1 s1 2 / s1 > T2 / h5 placed 1.1.2 s1 3 / s1
> T3 / h6 placed 1.1.3 s1 4 / s1 > T4 / noted 1.1.1 / noted 1.1.2 / noted 1.1.3 / h7 recall 1.1.2 s1 3 / c1 >
00000004be000006 / recalled 1.1.2 / s1 > X3 / s1 lost / h8 lost 1.1.1 / h9 lost 1.1.2 / h10 lost 1.1.3 /
answered 1.1.1 / c1 > 0000001180000005757073747265616d206c6f7374 / late 1.1.2 / answered 1.1.3 / c1 >
0000001180000007757073747265616d206c6f7374 / none s1
== row_14
client; server plain; in c1 T5; offer h1 s1; note h2; in c1 T5; next c1; recall h3 gives
h1 ticket 1.1.1 / h2 placed 1.1.1 s1 2 / s1 > T2 / noted 1.1.1 / c1 closed TagInUse / h3 recall 1.1.1 s1 2 /
recalled 1.1.1 / s1 > 0000001242000000000002636c69656e7420676f6e65
== row_14_tag0
client; in c1 T0 gives
c1 closed TagZero
== row_15_discard
client; server plain; in c1 T5; in c1 00000008c200000000000578; offer h1 s1; note h2; recall h3 gives
h1 ticket 1.1.1 / c1 > 00000004be000005 / h2 placed 1.1.1 s1 2 / s1 > T2 / noted 1.1.1 / h3 recall 1.1.1 s1 2 /
recalled 1.1.1 / s1 > X2
== row_15_rerr
client; server plain; in c1 T5; offer h1 s1; note h2; in s1 000000067f0000026e6f; settle h3 gives
h1 ticket 1.1.1 / h2 placed 1.1.1 s1 2 / s1 > T2 / noted 1.1.1 / h3 settled 1.1.1 / answered 1.1.1 / c1 >
00000006800000056e6f
== row_16_fragment
client; in c1 0000000441800001 gives
c1 closed Fragment
== row_16_context
client; in c1 00000009020000050001000561 gives
c1 closed BadBody 2
== row_16_ping
client; in c1 000000054100000100 gives
c1 closed BadBody 0
== row_17
limits 65536 1 8 64; client (2 times); server plain; in c1 T5; offer h1 s1; in c2 T5; offer h3 s1; in s1
00000007fe000009000000; in s1 R2 gives
h1 ticket 1.1.1 / h2 placed 1.1.1 s1 2 / s1 > T2 / h3 ticket 1.2.1 / refused Full / dropped s1 / h4 settled
1.1.1
== row_18
client; in c1 T5; in c1 T6; restart; nack h1; client; in c1 T5 gives
h1 ticket 1.1.1 / h2 ticket 1.1.2 / boot 2 / refused NoSuchHand / h3 ticket 2.1.1
== row_21
client; in c1 0000000401000003 gives
c1 > 0000000f80000003756e737570706f72746564
== row_21_tag0
client; in c1 0000000401000000 gives
== row_22
client; in c1 T5; in c1 00000006440000010001; unroute h1 gives
h1 ticket 1.1.1 / c1 > 000000168000000174696e6974206f7574206f6620706c616365 / answered 1.1.1 / c1 >
0000000c800000056e6f20726f757465
== row_23
server probe; in s1 0000000f8000000174696e697420636865636b; in s1 00000006bc0000010001; ping s1 (2 times); in s1
Q; ping s1 gives
s1 > 0000000f8000000174696e697420636865636b / s1 > 00000006440000010001 / s1 > P / refused Outstanding / s1 > P
== row_24
limits 65536 8 16 16; client; in c1 T5; in c1 T6; in c1 T7; in c1 T8; in c1 P gives
h1 ticket 1.1.1 / h2 ticket 1.1.2 / h3 ticket 1.1.3 / refused Spent / c1 > Q
== row_25_hold
limits 65536 1 5 64; client; hold on; in c1 P (6 times); hold off gives
refused Busy / c1 > Q (5 times)
== row_25_window
limits 65536 1 5 64; client; in c1 T5; in c1 T6 gives
h1 ticket 1.1.1 / refused Busy
== row_26
client; in c1 00000004; end c1; in c1 00 gives
c1 fault Truncated / c1 lost / refused Closed
== row_27
client; server plain; retire s1; in c1 T5; offer h1 s1; settle h1; nack h1 gives
s1 retired / h1 ticket 1.1.1 / refused Retired / refused WrongHand / answered 1.1.1 / c1 > N5
== row_28
limits 65536 8 16 64 1; client; server plain (2 times); in c1 T5; offer h1 s1; note h2; in s1 N2; settle h3;
offer h4 s2; note h5; in s2 N2; settle h6 gives
h1 ticket 1.1.1 / h2 placed 1.1.1 s1 2 / s1 > T2 / noted 1.1.1 / h3 settled 1.1.1 / again 1.1.1 / h4 ticket
1.1.1 / h5 placed 1.1.1 s2 2 / s2 > T2 / noted 1.1.1 / h6 settled 1.1.1 / answered 1.1.1 / c1 > N5
== row_29
limits 65536 8 16 64 1; client; server plain; in c1 T5; offer h1 s1; in s1 N2; settle h3; note h2 gives
h1 ticket 1.1.1 / h2 placed 1.1.1 s1 2 / s1 > T2 / h3 settled 1.1.1 / answered 1.1.1 / c1 > N5 / noted 1.1.1
== row_30
limits 65536 1 5 16; client; in c1 P (10 times); seal c1; in c1 P; seal c1; in c1 P (15 times) gives
c1 > Q (10 times) / refused NotFull / c1 > Q / c1 epoch 1 / c1 > Q (14 times) / refused Spent
== row_31
limits 65536 1 5 16; client; in c1 T5; seal c1; nack h1; in c1 P (9 times); seal c1; in c1 T5 gives
h1 ticket 1.1.1 / refused NotQuiet / answered 1.1.1 / c1 > N5 / c1 > Q (9 times) / c1 epoch 1 / h2 ticket 1.1.2
== row_32
limits 65536 1 5 16; client; server plain; now 1000; in s1 L; in s1 P (10 times); seal s1; now 11000; in c1 T5;
offer h1 s1 gives
s1 > Q (10 times) / s1 epoch 1 / h1 ticket 1.1.1 / refused Lapsed
== malformed_1
client; in c1 0000000a02000005000000042f73 gives
c1 closed BadBody 2
== malformed_2
client; in c1 0000000c020000050000000000010000 gives
c1 closed BadBody 8
== malformed_3
client; in c1 000000054400000100 gives
c1 closed BadBody 0
== malformed_4
client; in c1 0000000a44000001000100000005 gives
c1 closed BadBody 2
== malformed_5
client; in c1 00000006420000000000 gives
c1 closed BadBody 0
== malformed_6
server plain; in s1 00000004fe000002 gives
s1 closed BadBody 0
== malformed_7
server plain; in s1 0000000c430000000000000000000027 gives
s1 closed BadBody 1
== malformed_8
server plain; in s1 0000000e4300000000000000000000271000 gives
s1 closed BadBody 9
== stray
client; server plain; in c1 T5; offer h1 s1; in s1 R2 (2 times) gives
h1 ticket 1.1.1 / h2 placed 1.1.1 s1 2 / s1 > T2 / h3 settled 1.1.1 / dropped s1
== discarded_twice
client; in c1 T5; in c1 X5 (2 times) gives
h1 ticket 1.1.1 / c1 > 00000004be000005
== spent_server
limits 65536 8 16 16; client (2 times); server plain; in c1 T5; in c1 T6; in c1 T7; in c2 T5; in c2 T6; in c2
T7; offer h1 s1; offer h2 s1; offer h3 s1; offer h4 s1; offer h5 s1; offer h6 s1; in s1 R2 gives
h1 ticket 1.1.1 / h2 ticket 1.1.2 / h3 ticket 1.1.3 / h4 ticket 1.2.1 / h5 ticket 1.2.2 / h6 ticket 1.2.3 / h7
placed 1.1.1 s1 2 / s1 > T2 / h8 placed 1.1.2 s1 3 / s1 > T3 / h9 placed 1.1.3 s1 4 / s1 > T4 / h10 placed 1.2.1
s1 5 / s1 > T5 / h11 placed 1.2.2 s1 6 / s1 > T6 / refused Spent / h12 settled 1.1.1
== row_3_short
limits 32 1 5 16; client; in c1 00000003410000 gives
c1 fault TooShort / c1 lost
== row_3_large
limits 32 1 5 16; client; in c1 00000021 gives
c1 fault TooLarge / c1 lost
== row_3_huge
limits 32 1 5 16; client; in c1 ffffffff gives
c1 fault TooLarge / c1 lost
== row_3_frame
limits 32 1 5 16; client; in c1 000000200100000300000000000000000000000000000000000000000000000000000000 gives
c1 > 0000000f80000003756e737570706f72746564
";
