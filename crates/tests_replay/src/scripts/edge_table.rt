//! Scripts at the edges: limits at their ends, routes, leases, refusals, and streams whose session has closed.

pub const EDGES: &str = "\
== dispatch_max_frame_28
limits 32 1 5 16; client; in c1 0000002002000005000000042f732f610000686961616161616161616161616161616161 gives
h1 ticket 1.1.1
== drain_already_before_busy
limits 65536 1 5 16; client; drain c1; hold on; in c1 P (5 times); drain c1 gives
c1 > 0000000440000001 / refused AlreadyDraining
== drain_refusals
limits 65536 1 5 16; client; hold on; in c1 P (5 times); drain c1; hold off; in c1 P (10 times); drain c1; lose
c1; drain c1 gives
refused Busy / c1 > Q (15 times) / refused Spent / c1 lost / refused Closed
== err_127
client; server plain; in c1 T5; offer h1 s1; note h2; in s1 000000067f8000026e6f gives
h1 ticket 1.1.1 / h2 placed 1.1.1 s1 2 / s1 > T2 / noted 1.1.1 / s1 closed Fragment
== fragment_first
client (2 times); in c1 0000000402800005; in c2 00000005fe80000000 gives
c1 closed Fragment / c2 closed Fragment
== judge_later
client; judge gives
bad line 2
== lease_kinds
client; server plain; in c1 T5; in s1 0000000d43000000010000000000000000; offer h1 s1; in c1 T6; in s1
0000000d43000000ff0000000000000000; offer h3 s1; in c1 T7; in s1 0000000d4300000500ffffffffffffffff; offer h5
s1; in s1 0000000d43000005008000000000000000; offer h5 s1; in s1 L; offer h5 s1 gives
h1 ticket 1.1.1 / h2 placed 1.1.1 s1 2 / s1 > T2 / h3 ticket 1.1.2 / h4 placed 1.1.2 s1 3 / s1 > T3 / h5 ticket
1.1.3 / refused Lapsed (2 times) / h6 placed 1.1.3 s1 4 / s1 > T4
== lease_u64
client; server plain (2 times); now 18446744073709541614; in s1 L; in c1 T5; now 18446744073709551613; offer h1
s1; in c1 T6; now 18446744073709551614; offer h3 s1; in s2 0000000d43000000007fffffffffffffff; offer h3 s2; in
c1 T7; now 18446744073709551615; offer h5 s2; in c1 T8; offer h5 s1 gives
h1 ticket 1.1.1 / h2 placed 1.1.1 s1 2 / s1 > T2 / h3 ticket 1.1.2 / refused Lapsed / h4 placed 1.1.2 s2 2 / s2
> T2 / h5 ticket 1.1.3 / refused Lapsed / h6 ticket 1.1.4 / refused Lapsed
== limits_01
limits 32 1 5 16; client; in c1 P gives
c1 > Q
== limits_02
limits 31 1 5 16; client; in c1 P gives
bad line 1
== limits_03
limits 16777216 65536 1048576 16777216 3; client; in c1 P gives
c1 > Q
== limits_04
limits 16777217 1 5 16; client; in c1 P gives
bad line 1
== limits_05
limits 32 0 5 16; client; in c1 P gives
bad line 1
== limits_06
limits 32 65537 1048576 16; client; in c1 P gives
bad line 1
== limits_07
limits 32 1 4 16; client; in c1 P gives
bad line 1
== limits_08
limits 32 1 1048577 16; client; in c1 P gives
bad line 1
== limits_09
limits 32 1 5 15; client; in c1 P gives
bad line 1
== limits_10
limits 32 1 5 16777217; client; in c1 P gives
bad line 1
== limits_11
limits 32 1 5 16 4; client; in c1 P gives
bad line 1
== limits_12
limits 32 1 5 16 0; client; in c1 P gives
c1 > Q
== limits_13
limits 32 1 5; client; in c1 P gives
bad line 1
== limits_14
limits 32 1 5 16 0 0; client; in c1 P gives
bad line 1
== limits_15
limits 32 65536 65540 16; client; in c1 P gives
c1 > Q
== limits_16
limits 32 65536 65539 16; client; in c1 P gives
bad line 1
== limits_after
client; limits 32 1 5 16 gives
bad line 2
== limits_comment
# x; ; limits 32 1 5 16; client; in c1 P gives
c1 > Q
== limits_second
limits 32 1 5 16 (2 times) gives
bad line 2
== max_tag
client; in c1 00000010027fffff000000042f732f6100006869; nack h1; in c1 0000000441ffffff gives
h1 ticket 1.1.1 / answered 1.1.1 / c1 > 00000007fe7fffff020000 / c1 closed Fragment
== now_max
now 18446744073709551615; client; server plain; in s1 L; in c1 T5; offer h1 s1; now 0; offer h1 s1; nack h1
gives
h1 ticket 1.1.1 / refused Lapsed (2 times) / answered 1.1.1 / c1 > N5
== now_too_big
client; now 18446744073709551616; in c1 P gives
bad line 2
== offer_order
limits 65536 1 5 16; client; server probe; in c1 T5; in s1 0000000440000003; retire s1; in s1
0000000d43000000000000000000000000; offer h1 s1; in s1 000000058000000161; offer h1 s1; lose s1; offer h1 s1;
offer h1 s2; offer h9 s2; offer h9 s1 gives
s1 > 0000000f8000000174696e697420636865636b / h1 ticket 1.1.1 / s1 > 00000004c0000003 / s1 retired / refused
NotOpen / refused Drained / s1 lost / refused Closed / refused NoSuchSession (2 times) / refused NoSuchHand
== offer_retired_lapsed_full
limits 65536 1 5 16; client (2 times); server plain; in c1 T5; offer h1 s1; in c2 T5; offer h3 s1; in s1
0000000d43000000000000000000000000; offer h3 s1; retire s1; offer h3 s1; in s1 0000000440000003; offer h3 s1
gives
h1 ticket 1.1.1 / h2 placed 1.1.1 s1 2 / s1 > T2 / h3 ticket 1.2.1 / refused Full / refused Lapsed / s1 retired
/ refused Retired / s1 > 00000004c0000003 / refused Drained
== ping_refusals
limits 65536 1 5 16; server probe; ping s1; in s1 000000058000000161; ping s1 (2 times); in s1 Q; hold on; in s1
P (5 times); ping s1; hold off; in s1 P (5 times); ping s1; in s1 P; ping s1; lose s1; ping s1 gives
s1 > 0000000f8000000174696e697420636865636b / refused NotOpen / s1 > P / refused Outstanding / refused Busy / s1
> Q (10 times) / s1 > P / s1 > Q / refused Outstanding / s1 lost / refused Closed
== place_all_closed
client; server plain (2 times); route /s/a s1 s2; lose s1; lose s2; in c1 T5; place h1 gives
s1 lost / s2 lost / h1 ticket 1.1.1 / refused Closed (2 times) / answered 1.1.1 / c1 > N5
== place_behind_gone
client; server plain; in c1 T5; end c1; lose c1; place h1; next c1 gives
h1 ticket 1.1.1 / c1 lost / late 1.1.1 / none c1
== place_load_ties
client; server plain (3 times); route /s/a s3 s1 s2; in c1 T5; place h1; in c1 T6; place h3; in c1 T7; place h5;
in c1 T8; place h7 gives
h1 ticket 1.1.1 / h2 placed 1.1.1 s3 2 / s3 > T2 / noted 1.1.1 / h3 ticket 1.1.2 / h4 placed 1.1.2 s1 2 / s1 >
T2 / noted 1.1.2 / h5 ticket 1.1.3 / h6 placed 1.1.3 s2 2 / s2 > T2 / noted 1.1.3 / h7 ticket 1.1.4 / h8 placed
1.1.4 s3 3 / s3 > T3 / noted 1.1.4
== place_no_route
client; in c1 T5; place h1 gives
h1 ticket 1.1.1 / answered 1.1.1 / c1 > 0000000c800000056e6f20726f757465
== place_not_there
client; server plain; route /s/a s9 s1 s2; in c1 T5; place h1 gives
h1 ticket 1.1.1 / refused NoSuchSession / h2 placed 1.1.1 s1 2 / s1 > T2 / noted 1.1.1
== restart_keeps
limits 65536 1 5 16; client; now 7; hold on; in c1 0000; restart; client; in c1 P; server plain; in s1
0000000d43000000000000000000000000; hold off; route /s/a s1; in c1 T5; place h1; restart; client; server plain;
in c1 T5; place h2 gives
boot 2 / c1 > Q / h1 ticket 2.1.1 / refused Lapsed / answered 2.1.1 / c1 > N5 / boot 3 / h2 ticket 3.1.1 /
answered 3.1.1 / c1 > 0000000c800000056e6f20726f757465
== route_64
client; route /s/a s1 s2 s3 s4 s5 s6 s7 s8 s9 s10 s11 s12 s13 s14 s15 s16 s17 s18 s19 s20 s21 s22 s23 s24 s25
s26 s27 s28 s29 s30 s31 s32 s33 s34 s35 s36 s37 s38 s39 s40 s41 s42 s43 s44 s45 s46 s47 s48 s49 s50 s51 s52 s53
s54 s55 s56 s57 s58 s59 s60 s61 s62 s63 s64; in c1 T5; place h1 gives
h1 ticket 1.1.1 / refused NoSuchSession (64 times) / answered 1.1.1 / c1 > N5
== route_65
route /s/a s1 s2 s3 s4 s5 s6 s7 s8 s9 s10 s11 s12 s13 s14 s15 s16 s17 s18 s19 s20 s21 s22 s23 s24 s25 s26 s27
s28 s29 s30 s31 s32 s33 s34 s35 s36 s37 s38 s39 s40 s41 s42 s43 s44 s45 s46 s47 s48 s49 s50 s51 s52 s53 s54 s55
s56 s57 s58 s59 s60 s61 s62 s63 s64 s65 gives
bad line 1
== route_none
route /s/a gives
bad line 1
== route_twice
route /s/a s1 s1 gives
bad line 1
== route_twice_zero
route /s/a s1 s01 gives
bad line 1
== stream_closed_goes_on
client; lose c1; in c1 P; in c1 0000; in c1 0004; in c1 41000001; in c1 ffffffff; in c1 00; end c1 gives
c1 lost / refused Closed (2 times) / c1 fault TooLarge / refused Closed
== stream_fault_large
limits 32 1 5 16; client; in c1 0000000441000001000000210000; in c1 P; end c1; lose c1 gives
c1 > Q / c1 fault TooLarge / c1 lost / refused Closed
== stream_short
client; in c1 00000000; in c1 00 gives
c1 fault TooShort / c1 lost / refused Closed
== stream_short3
client; in c1 00000003; in c1 4100; end c1 gives
c1 fault Truncated / c1 lost
== stream_short3b
client; in c1 00000003410000 gives
c1 fault TooShort / c1 lost
== wrong_values
client; server plain; in c1 T5; note h1; settle h1; fail h1; recall h1; place h9; offer h1 s1; place h2; nack
h2; note h2 (2 times) gives
h1 ticket 1.1.1 / refused WrongHand (4 times) / refused NoSuchHand / h2 placed 1.1.1 s1 2 / s1 > T2 / refused
WrongHand (2 times) / noted 1.1.1 / refused NoSuchHand
";
