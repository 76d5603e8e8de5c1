//! Scripts on sessions: room that runs out, seals, and dispatches that are sent again.

pub const SESSIONS: &str = "\
== busy_before_spent
limits 65536 1 5 16; client; in c1 T5; in c1 P (8 times); in c1 T6; in c1 P (4 times); hold on; in c1 P (5
times); in c1 T5 gives
h1 ticket 1.1.1 / c1 > Q (8 times) / refused Busy / c1 > Q (3 times) / refused Spent (6 times) / c1 closed
TagInUse
== client_replies_ignored
client; in c1 N5; in c1 00000004be000005; in c1 0000000480000005; in c1 000000047f000001; in c1 Q; in c1
00000006bc0000010001; in c1 00000004c0000001; in c1 0000000400000007; in c1 00000004ff000007; in c1
000000047e000007; in c1 0000000d43000007000000000000002710; in c1 L; in c1 0000000440000003; in c1
0000000440000000; in c1 0000000f8000000274696e697420636865636b; in c1 0000000f8000000174696e697420636865636b; in
c1 00000006440000010001; in c1 0000000f8000000174696e697420636865636b gives
c1 > 0000000f80000007756e737570706f72746564 (2 times) / c1 > 0000000f80000003756e737570706f72746564 / c1 >
0000000f8000000174696e697420636865636b / c1 > 00000006bc0000010001
== final_reply_when_spent
limits 65536 1 5 16; client; server plain; in c1 T5; offer h1 s1; in s1 P (14 times); clock s1; retire s1; ping
s1; in s1 R2; settle h3; in s1 P; in s1 0000000441800000 gives
h1 ticket 1.1.1 / h2 placed 1.1.1 s1 2 / s1 > T2 / s1 > Q (12 times) / refused Spent (5 times) / h3 settled
1.1.1 / answered 1.1.1 / c1 > R5 / s1 > Q / s1 closed Fragment
== retries_1
limits 65536 8 16 64 1; client; server plain (4 times); in c1 T5; offer h1 s1; note h2; in s1 N2; settle h3;
offer h4 s2; note h5; in s2 N2; settle h6 gives
h1 ticket 1.1.1 / h2 placed 1.1.1 s1 2 / s1 > T2 / noted 1.1.1 / h3 settled 1.1.1 / again 1.1.1 / h4 ticket
1.1.1 / h5 placed 1.1.1 s2 2 / s2 > T2 / noted 1.1.1 / h6 settled 1.1.1 / answered 1.1.1 / c1 > N5
== retries_2
limits 65536 8 16 64 2; client; server plain (4 times); in c1 T5; offer h1 s1; note h2; in s1 N2; settle h3;
offer h4 s2; note h5; in s2 N2; settle h6; offer h7 s3; note h8; in s3 N2; settle h9 gives
h1 ticket 1.1.1 / h2 placed 1.1.1 s1 2 / s1 > T2 / noted 1.1.1 / h3 settled 1.1.1 / again 1.1.1 / h4 ticket
1.1.1 / h5 placed 1.1.1 s2 2 / s2 > T2 / noted 1.1.1 / h6 settled 1.1.1 / again 1.1.1 / h7 ticket 1.1.1 / h8
placed 1.1.1 s3 2 / s3 > T2 / noted 1.1.1 / h9 settled 1.1.1 / answered 1.1.1 / c1 > N5
== retries_3
limits 65536 8 16 64 3; client; server plain (4 times); in c1 T5; offer h1 s1; note h2; in s1 N2; settle h3;
offer h4 s2; note h5; in s2 N2; settle h6; offer h7 s3; note h8; in s3 N2; settle h9; offer h10 s4; note h11; in
s4 N2; settle h12 gives
h1 ticket 1.1.1 / h2 placed 1.1.1 s1 2 / s1 > T2 / noted 1.1.1 / h3 settled 1.1.1 / again 1.1.1 / h4 ticket
1.1.1 / h5 placed 1.1.1 s2 2 / s2 > T2 / noted 1.1.1 / h6 settled 1.1.1 / again 1.1.1 / h7 ticket 1.1.1 / h8
placed 1.1.1 s3 2 / s3 > T2 / noted 1.1.1 / h9 settled 1.1.1 / again 1.1.1 / h10 ticket 1.1.1 / h11 placed 1.1.1
s4 2 / s4 > T2 / noted 1.1.1 / h12 settled 1.1.1 / answered 1.1.1 / c1 > N5
== retry_again_client_gone
limits 65536 8 16 64 1; client; server plain; in c1 T5; offer h1 s1; note h2; lose c1; next c1; in s1 N2; settle
h4; recall h3; next c1 gives
h1 ticket 1.1.1 / h2 placed 1.1.1 s1 2 / s1 > T2 / noted 1.1.1 / c1 lost / h3 recall 1.1.1 s1 2 / h4 settled
1.1.1 / late 1.1.1 / stale 1.1.1 / none c1
== retry_discard_after_again
limits 65536 8 16 64 1; client; server plain; in c1 T5; offer h1 s1; note h2; in s1 N2; settle h3; in c1 X5;
offer h4 s1; note h5; recall h6; in s1 N2; settle h7 gives
h1 ticket 1.1.1 / h2 placed 1.1.1 s1 2 / s1 > T2 / noted 1.1.1 / h3 settled 1.1.1 / again 1.1.1 / h4 ticket
1.1.1 / c1 > 00000004be000005 / h5 placed 1.1.1 s1 2 / s1 > T2 / noted 1.1.1 / h6 recall 1.1.1 s1 2 / recalled
1.1.1 / s1 > X2 / h7 settled 1.1.1 / late 1.1.1
== retry_discarded
limits 65536 8 16 64 1; client; server plain; in c1 T5; offer h1 s1; note h2; in c1 X5; in s1 N2; settle h4;
recall h3 gives
h1 ticket 1.1.1 / h2 placed 1.1.1 s1 2 / s1 > T2 / noted 1.1.1 / h3 recall 1.1.1 s1 2 / c1 > 00000004be000005 /
h4 settled 1.1.1 / late 1.1.1 / stale 1.1.1
== retry_lost_after_again
limits 65536 8 16 64 2; client; server plain (2 times); in c1 T5; offer h1 s1; note h2; in s1 N2; settle h3;
offer h4 s2; note h5; lose s2; next s2; fail h6; next s2 gives
h1 ticket 1.1.1 / h2 placed 1.1.1 s1 2 / s1 > T2 / noted 1.1.1 / h3 settled 1.1.1 / again 1.1.1 / h4 ticket
1.1.1 / h5 placed 1.1.1 s2 2 / s2 > T2 / noted 1.1.1 / s2 lost / h6 lost 1.1.1 / answered 1.1.1 / c1 >
0000001180000005757073747265616d206c6f7374 / none s2
== retry_nack_with_contexts
limits 65536 8 16 64 1; client; server plain; in c1 T5; offer h1 s1; note h2; in s1
0000000dfe00000202000100016b000176; settle h3; offer h4 s1; note h5; in s1 0000000dfe00000202000100016b000176;
settle h6 gives
h1 ticket 1.1.1 / h2 placed 1.1.1 s1 2 / s1 > T2 / noted 1.1.1 / h3 settled 1.1.1 / again 1.1.1 / h4 ticket
1.1.1 / h5 placed 1.1.1 s1 2 / s1 > T2 / noted 1.1.1 / h6 settled 1.1.1 / answered 1.1.1 / c1 >
0000000dfe00000502000100016b000176
== retry_places_spent
limits 65536 8 16 16 3; client; in c1 T5; in c1 T6; in c1 P (8 times) gives
h1 ticket 1.1.1 / refused Spent / c1 > Q (5 times) / refused Spent (3 times)
== retry_rerr_and_status1
limits 65536 8 16 64 3; client; server plain; in c1 T5; in c1 T6; offer h1 s1; note h3; offer h2 s1; note h4; in
s1 00000007fe000002010000; settle h5; in s1 0000000480000003; settle h6 gives
h1 ticket 1.1.1 / h2 ticket 1.1.2 / h3 placed 1.1.1 s1 2 / s1 > T2 / noted 1.1.1 / h4 placed 1.1.2 s1 3 / s1 >
T3 / noted 1.1.2 / h5 settled 1.1.1 / answered 1.1.1 / c1 > 00000007fe000005010000 / h6 settled 1.1.2 / answered
1.1.2 / c1 > 0000000480000006
== retry_unroute
limits 65536 8 16 64 1; client; server plain; in c1 T5; offer h1 s1; note h2; in s1 N2; settle h3; place h4
gives
h1 ticket 1.1.1 / h2 placed 1.1.1 s1 2 / s1 > T2 / noted 1.1.1 / h3 settled 1.1.1 / again 1.1.1 / h4 ticket
1.1.1 / answered 1.1.1 / c1 > 0000000c800000056e6f20726f757465
== seal_client_order
limits 65536 1 5 16; client; seal c1; in c1 T5; seal c1; nack h1; hold on; in c1 P; seal c1; hold off; seal c1;
in c1 P (9 times); hold on; in c1 P; seal c1; hold off; seal c1; lose c1; seal c1; seal c2; seal s1 gives
refused NotFull / h1 ticket 1.1.1 / refused NotQuiet / answered 1.1.1 / c1 > N5 / refused NotQuiet / c1 > Q /
refused NotFull / c1 > Q (9 times) / refused NotQuiet / c1 > Q / c1 epoch 1 / c1 lost / refused Closed / refused
NoSuchSession (2 times)
== seal_closed_with_entries
limits 65536 2 6 16; client; server plain; in c1 T5; offer h1 s1; lose c1; lose s1; seal c1; seal s1 gives
h1 ticket 1.1.1 / h2 placed 1.1.1 s1 2 / s1 > T2 / c1 lost / s1 lost / refused Closed (2 times)
== seal_keeps_client
limits 65536 1 5 16; client; in c1 00000006440000010001; drain c1; in c1 P (10 times); seal c1; in c1
00000006440000020001; in c1 0000000f8000000174696e697420636865636b; drain c1; in c1 00000004c0000001; in c1 P (9
times); seal c1; in c1 T9; drain c1 gives
c1 > 00000006bc0000010001 / c1 > 0000000440000001 / c1 > Q (10 times) / c1 epoch 1 / c1 >
000000168000000274696e6974206f7574206f6620706c616365 / refused AlreadyDraining / c1 > Q (9 times) / c1 epoch 2 /
c1 > N9 / refused AlreadyDraining
== seal_keeps_server
limits 65536 1 5 16; client; server probe; in s1 0000000441000009 (12 times); seal s1; in s1
0000000f8000000174696e697420636865636b; in s1 00000006bc0000010001; ping s1; in s1 0000000441000009 (9 times);
seal s1; ping s1; in s1 Q; ping s1; in s1 0000000440000007; retire s1; in s1 Q; in s1 0000000441000009 (8
times); seal s1; in c1 T5; offer h1 s1; ping s1 gives
s1 > 0000000f8000000174696e697420636865636b / s1 > 00000004bf000009 (12 times) / s1 epoch 1 / s1 >
00000006440000010001 / s1 > P / s1 > 00000004bf000009 (9 times) / s1 epoch 2 / refused Outstanding / s1 > P / s1
> 00000004c0000007 / s1 retired / s1 > 00000004bf000009 (8 times) / s1 epoch 3 / h1 ticket 1.1.1 / refused
Drained / s1 > P
== seal_server_order
limits 65536 1 5 16; server plain; seal s1; hold on; in s1 P; seal s1; hold off; seal s1; in s1 P (10 times);
seal s1; client; in c1 T5; offer h1 s1; seal s1; in s1 R2; seal s1; lose s1; seal s1 gives
refused NotFull / refused NotQuiet / s1 > Q / refused NotFull / s1 > Q (10 times) / s1 epoch 1 / h1 ticket 1.1.1
/ h2 placed 1.1.1 s1 2 / s1 > T2 / refused NotQuiet / h3 settled 1.1.1 / refused NotFull / s1 lost / refused
Closed
== seal_stream_goes_on
limits 65536 1 5 16; client; in c1 P (11 times); in c1 00000004; seal c1; in c1 41000001 gives
c1 > Q (11 times) / c1 epoch 1 / c1 > Q
== server_stray_all
client; server plain; in s1 00000004be000002; in s1 0000000480000002; in s1 000000047f000002; in s1 N2; in s1 Q;
in s1 00000006bc0000010001; in s1 00000004c0000001; in s1 00000004ff000001; in s1 0000000400000001; in s1
0000000401000000; in s1 0000000401000003; in s1 00000004050000ff; in s1 000000087e000009aabbccdd; in s1 X2 gives
dropped s1 (9 times) / s1 > 0000000f80000003756e737570706f72746564 / s1 > 0000000f800000ff756e737570706f72746564
/ s1 > 0000000f80000009756e737570706f72746564
";
