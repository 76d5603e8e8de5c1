//! The examples of the manual, docs/REPLAY.md, and more: each a script, and all that it prints.

/// An example begins with `== ` and its heading there. `check/manual.py --table` prints them so.
pub const EXAMPLES: &str = "\
== A ping, 1
client; in c1 P gives
c1 > Q
== A dispatch there and back, 1
client; server plain; in c1 T5; offer h1 s1; note h2; in s1 R2; settle h3 gives
h1 ticket 1.1.1 / h2 placed 1.1.1 s1 2 / s1 > T2 / noted 1.1.1 / h3 settled 1.1.1 / answered 1.1.1 / c1 > R5
== route and place, 1
client; server plain (2 times); route /s/a s3 s1 s2; retire s1; in c1 T5; place h1 gives
s1 retired / h1 ticket 1.1.1 / refused NoSuchSession / refused Retired / h2 placed 1.1.1 s2 2 / s2 > T2 / noted
1.1.1
== route and place, 2
client; in c1 T5; place h1 gives
h1 ticket 1.1.1 / answered 1.1.1 / c1 > 0000000c800000056e6f20726f757465
== unroute and nack, 1
client; in c1 T5; in c1 T6; unroute h1; nack h2 gives
h1 ticket 1.1.1 / h2 ticket 1.1.2 / answered 1.1.1 / c1 > 0000000c800000056e6f20726f757465 / answered 1.1.2 / c1
> N6
== recall, 1
client; server plain; in c1 T5; in c1 X5; offer h1 s1; note h2; recall h3 gives
h1 ticket 1.1.1 / c1 > 00000004be000005 / h2 placed 1.1.1 s1 2 / s1 > T2 / noted 1.1.1 / h3 recall 1.1.1 s1 2 /
recalled 1.1.1 / s1 > X2
== lose, next and fail, 1
client; server plain; in c1 T5; offer h1 s1; note h2; lose s1; next s1; fail h3; next s1 gives
h1 ticket 1.1.1 / h2 placed 1.1.1 s1 2 / s1 > T2 / noted 1.1.1 / s1 lost / h3 lost 1.1.1 / answered 1.1.1 / c1 >
0000001180000005757073747265616d206c6f7374 / none s1
== lose, next and fail, 2
client; server plain; in c1 T5; offer h1 s1; note h2; lose c1; next c1 (2 times); recall h3; in s1 R2; settle h4
gives
h1 ticket 1.1.1 / h2 placed 1.1.1 s1 2 / s1 > T2 / noted 1.1.1 / c1 lost / h3 recall 1.1.1 s1 2 / none c1 /
recalled 1.1.1 / s1 > 0000001242000000000002636c69656e7420676f6e65 / h4 settled 1.1.1 / late 1.1.1
== server probe and ping, 1
server probe; ping s1; in s1 0000000f8000000174696e697420636865636b; in s1 00000006bc0000010001; ping s1 (2
times); in s1 Q; ping s1 gives
s1 > 0000000f8000000174696e697420636865636b / refused NotOpen / s1 > 00000006440000010001 / s1 > P / refused
Outstanding / s1 > P
== now, clock and leases, 1
client; server plain; now 1000; in s1 L; now 11000; clock s1; now 5000; in c1 T5; offer h1 s1 gives
h1 ticket 1.1.1 / refused Lapsed
== drain and retire, 1
client; drain c1; in c1 00000004c0000001; in c1 T6; drain c1 gives
c1 > 0000000440000001 / c1 > N6 / refused AlreadyDraining
== drain and retire, 2
client; server plain; retire s1; in c1 T5; offer h1 s1; settle h1; nack h1 gives
s1 retired / h1 ticket 1.1.1 / refused Retired / refused WrongHand / answered 1.1.1 / c1 > N5
== Sending again, 1
limits 65536 8 16 64 1; client; server plain (2 times); in c1 T5; offer h1 s1; note h2; in s1 N2; settle h3;
offer h4 s2 gives
h1 ticket 1.1.1 / h2 placed 1.1.1 s1 2 / s1 > T2 / noted 1.1.1 / h3 settled 1.1.1 / again 1.1.1 / h4 ticket
1.1.1 / h5 placed 1.1.1 s2 2 / s2 > T2
== seal, 1
limits 65536 1 5 16; client; in c1 T5; nack h1; in c1
00000004410000010000000441000002000000044100000300000004410000040000000441000005 (2 times); seal c1; in c1 T5
gives
h1 ticket 1.1.1 / answered 1.1.1 / c1 > N5 / c1 > Q / c1 > 00000004bf000002 / c1 > 00000004bf000003 / c1 >
00000004bf000004 / c1 > 00000004bf000005 / c1 > Q / c1 > 00000004bf000002 / c1 > 00000004bf000003 / c1 >
00000004bf000004 / c1 > 00000004bf000005 / c1 epoch 1 / h2 ticket 1.1.2
== seal, 2
limits 65536 1 5 16; client; in c1 T5; seal c1; nack h1; seal c1 gives
h1 ticket 1.1.1 / refused NotQuiet / answered 1.1.1 / c1 > N5 / refused NotFull
== roll, 1
limits 65536 1 5 16; client; server plain; in c1 T5; offer h1 s1; note h2; in c1
00000004410000010000000441000002000000044100000300000004410000040000000441000005 (2 times); seal c1; roll c1; in
c1 0000000441000009; in s1 00000009fe0000020000006869; settle h3 gives
h1 ticket 1.1.1 / h2 placed 1.1.1 s1 2 / s1 > T2 / noted 1.1.1 / c1 > Q / c1 > 00000004bf000002 / c1 >
00000004bf000003 / c1 > 00000004bf000004 / c1 > 00000004bf000005 / c1 > Q / c1 > 00000004bf000002 / c1 >
00000004bf000003 / c1 > 00000004bf000004 / c1 > 00000004bf000005 / refused NotQuiet / c1 epoch 1 / c1 >
00000004bf000009 / h3 settled 1.1.1 / answered 1.1.1 / c1 > 00000009fe0000050000006869
== roll, 2
limits 65536 3 7 16; client; in c1 T5; in c1 T6; in c1 T7; roll c1; nack h2; roll c1; lose c1; roll c1; roll c2
gives
h1 ticket 1.1.1 / h2 ticket 1.1.2 / h3 ticket 1.1.3 / refused NoRoom / answered 1.1.2 / c1 > N6 / c1 epoch 1 /
c1 lost / refused Closed / refused NoSuchSession
== restart, 1
client; in c1 T5; restart; nack h1; client; in c1 T5 gives
h1 ticket 1.1.1 / boot 2 / refused NoSuchHand / h2 ticket 2.1.1
== judge, 1
judge; limits 65536 1 5 16; client; server plain; in c1 T5; offer h1 s1; note h2; restart; client; in c1 T5
gives
h1 ticket 1.1.1 / h2 placed 1.1.1 s1 2 / s1 > T2 / noted 1.1.1 / agree / boot 2 / h3 ticket 2.1.1 / agree
== hold, 1
client; hold on; in c1 00000004410000010000000441000002; hold off gives
c1 > Q / c1 > 00000004bf000002
== Bytes in pieces, 1
client; in c1 00000004; in c1 41; in c1 000001 gives
c1 > Q
== A session that is closed, 1
client; in c1 P; in c1 000000044180000100000004410000020000000441000003 gives
c1 > Q / c1 closed Fragment / refused Closed (2 times)
== A session that is closed, 2
client; lose c1 (2 times); in c1 P; in c1 000000; end c1 gives
c1 lost / refused Closed / c1 fault Truncated
== Faults of a stream, 1
client; in c1 00100001; end c1; in c1 00 gives
c1 fault TooLarge / c1 lost / refused Closed
== What is refused, 1
in c1 00; client; lose c2; offer h1 s1; note h1; server plain; offer h1 s1; place h1; end s2; seal c2 gives
refused NoSuchSession (3 times) / refused NoSuchHand (3 times) / refused NoSuchSession (2 times)
== What is refused, 2
client; server plain; in c1 T5; note h1; recall h1; offer h1 s1; place h2; nack h2 gives
h1 ticket 1.1.1 / refused WrongHand (2 times) / h2 placed 1.1.1 s1 2 / s1 > T2 / refused WrongHand (2 times)
== What is refused, 3
client; server plain; in c1 T5; lose s1; offer h1 s1; clock s1; ping s1; retire s1; seal s1; lose c1; drain c1
gives
h1 ticket 1.1.1 / s1 lost / refused Closed (5 times) / c1 lost / refused Closed
== What is refused, 4
client; server plain (2 times); in s1 0000000440000001; in s2 0000000d43000000000000000000000000; in c1 T5;
offer h1 s1; offer h1 s2 gives
s1 > 00000004c0000001 / h1 ticket 1.1.1 / refused Drained / refused Lapsed
== What is refused, 5
limits 65536 1 5 64; client (2 times); server plain; in c1 T5; in c1 T6; in c2 T5; offer h1 s1; offer h2 s1
gives
h1 ticket 1.1.1 / refused Busy / h2 ticket 1.2.1 / h3 placed 1.1.1 s1 2 / s1 > T2 / refused Full
== What is refused, 6
limits 65536 1 5 64; client; hold on; in c1
00000004410000010000000441000002000000044100000300000004410000040000000441000005; in c1 0000000441000006; drain
c1; hold off gives
refused Busy (2 times) / c1 > Q / c1 > 00000004bf000002 / c1 > 00000004bf000003 / c1 > 00000004bf000004 / c1 >
00000004bf000005
== What is refused, 7
limits 65536 8 16 16; client; in c1 T5; in c1 T6; in c1 T7; in c1 T8; in c1 P gives
h1 ticket 1.1.1 / h2 ticket 1.1.2 / h3 ticket 1.1.3 / refused Spent / c1 > Q
== A line that can't be read, 1
client; in c1 P; ; in c7 0g; in c1 P gives
c1 > Q / bad line 4
== A line that can't be read, 2
# The second space makes an empty word.; client; in c1  00 gives
bad line 3
";
