//! Scripts in which sessions are rolled. What is expected follows from the rows `roll_..` of docs/ROWS.md: the
//! words behind its name, or comments in a script, say how.

pub const ROLLS: &str = "\
== roll_asked: The note and the answer are due still: the note, the settled reply and R5 come behind the roll.
judge; limits 65536 8 16 16; client; server plain; in c1 T5; roll c1; offer h1 s1; note h2; in s1 R2; settle h3
gives
h1 ticket 1.1.1 / c1 epoch 1 / h2 placed 1.1.1 s1 2 / s1 > T2 / noted 1.1.1 / h3 settled 1.1.1 / answered 1.1.1
/ c1 > R5 / agree
== roll_noted: Tag 2 of s1 is that of the dispatch still, and tag 5 of c1.
judge; limits 65536 8 16 16; client; server plain; in c1 T5; offer h1 s1; note h2; roll c1; roll s1; in s1 R2;
settle h3 gives
h1 ticket 1.1.1 / h2 placed 1.1.1 s1 2 / s1 > T2 / noted 1.1.1 / c1 epoch 1 / s1 epoch 1 / h3 settled 1.1.1 /
answered 1.1.1 / c1 > R5 / agree
== roll_discarded: The recall is owed: the note gives it, and it carries the reason of X5 to tag 2.
judge; limits 65536 8 16 16; client; server plain; in c1 T5; offer h1 s1; in c1 X5; roll c1; roll s1; note h2;
recall h3 gives
h1 ticket 1.1.1 / h2 placed 1.1.1 s1 2 / s1 > T2 / c1 > 00000004be000005 / c1 epoch 1 / s1 epoch 1 / noted 1.1.1
/ h3 recall 1.1.1 s1 2 / recalled 1.1.1 / s1 > X2 / agree
== roll_recalled: It was recalled already, so the reply is late, and nothing more goes to s1.
judge; limits 65536 8 16 16; client; server plain; in c1 T5; offer h1 s1; note h2; in c1 X5; recall h3; roll c1;
roll s1; in s1 R2; settle h4 gives
h1 ticket 1.1.1 / h2 placed 1.1.1 s1 2 / s1 > T2 / noted 1.1.1 / h3 recall 1.1.1 s1 2 / c1 > 00000004be000005 /
recalled 1.1.1 / s1 > X2 / c1 epoch 1 / s1 epoch 1 / h4 settled 1.1.1 / late 1.1.1 / agree
== roll_early: The note alone is due.
judge; limits 65536 8 16 16; client; server plain; in c1 T5; offer h1 s1; in s1 R2; settle h3; roll c1; note h2
gives
h1 ticket 1.1.1 / h2 placed 1.1.1 s1 2 / s1 > T2 / h3 settled 1.1.1 / answered 1.1.1 / c1 > R5 / c1 epoch 1 /
noted 1.1.1 / agree
== roll_place: The place was noted before the roll: the recall names s1 and tag 2.
judge; limits 65536 8 16 16; client; server plain; in c1 T5; offer h1 s1; note h2; roll c1; roll s1; in c1 X5;
recall h3 gives
h1 ticket 1.1.1 / h2 placed 1.1.1 s1 2 / s1 > T2 / noted 1.1.1 / c1 epoch 1 / s1 epoch 1 / h3 recall 1.1.1 s1 2
/ c1 > 00000004be000005 / recalled 1.1.1 / s1 > X2 / agree
== roll_lost: What s1 took before the roll is lost with it.
judge; limits 65536 8 16 16; client; server plain; in c1 T5; offer h1 s1; note h2; roll c1; roll s1; lose s1;
next s1 (2 times); fail h3 gives
h1 ticket 1.1.1 / h2 placed 1.1.1 s1 2 / s1 > T2 / noted 1.1.1 / c1 epoch 1 / s1 epoch 1 / s1 lost / h3 lost
1.1.1 / none s1 / answered 1.1.1 / c1 > 0000001180000005757073747265616d206c6f7374 / agree
== roll_left: The recall goes to the place that was noted before, with the router's own reason.
judge; limits 65536 8 16 16; client; server plain; in c1 T5; offer h1 s1; note h2; roll c1; roll s1; lose c1;
next c1 (2 times); recall h3 gives
h1 ticket 1.1.1 / h2 placed 1.1.1 s1 2 / s1 > T2 / noted 1.1.1 / c1 epoch 1 / s1 epoch 1 / c1 lost / h3 recall
1.1.1 s1 2 / none c1 / recalled 1.1.1 / s1 > 0000001242000000000002636c69656e7420676f6e65 / agree
== roll_copy: s1 keeps the copy: the nack brings the dispatch back with its body, for s2.
judge; limits 65536 8 16 16 1; client; server plain (2 times); in c1 T5; offer h1 s1; note h2; roll s1; in s1
N2; settle h3; offer h4 s2; note h5; in s2 R2; settle h6 gives
h1 ticket 1.1.1 / h2 placed 1.1.1 s1 2 / s1 > T2 / noted 1.1.1 / s1 epoch 1 / h3 settled 1.1.1 / again 1.1.1 /
h4 ticket 1.1.1 / h5 placed 1.1.1 s2 2 / s2 > T2 / noted 1.1.1 / h6 settled 1.1.1 / answered 1.1.1 / c1 > R5 /
agree
== roll_tries: The one try was used before the roll: the second nack is passed on.
judge; limits 65536 8 16 16 1; client; server plain (2 times); in c1 T5; offer h1 s1; note h2; in s1 N2; settle
h3; roll c1; offer h4 s2; note h5; in s2 N2; settle h6 gives
h1 ticket 1.1.1 / h2 placed 1.1.1 s1 2 / s1 > T2 / noted 1.1.1 / h3 settled 1.1.1 / again 1.1.1 / h4 ticket
1.1.1 / c1 epoch 1 / h5 placed 1.1.1 s2 2 / s2 > T2 / noted 1.1.1 / h6 settled 1.1.1 / answered 1.1.1 / c1 > N5
/ agree
== roll_lease: It lasts until 11,000, as it was granted.
judge; limits 65536 8 16 16; client; server plain; now 1000; in s1 L; roll s1; now 10999; in c1 T5; offer h1 s1;
now 11000; in c1 T6; offer h3 s1 gives
s1 epoch 1 / h1 ticket 1.1.1 / h2 placed 1.1.1 s1 2 / s1 > T2 / h3 ticket 1.1.2 / refused Lapsed / agree
== roll_ping: The first is out until its Rping.
judge; limits 65536 8 16 16; server plain; ping s1; roll s1; ping s1; in s1 Q; ping s1 gives
s1 > P / s1 epoch 1 / refused Outstanding / s1 > P / agree
== roll_queued: Frames that waited over the roll go out before the one that came behind it; c1 comes before s1.
judge; limits 65536 8 16 16; client; server plain; in c1 T5; hold on; offer h1 s1; in c1 P; in c1
0000000441000002; roll c1; roll s1; in c1 0000000441000003; hold off gives
h1 ticket 1.1.1 / h2 placed 1.1.1 s1 2 / c1 epoch 1 / s1 epoch 1 / c1 > Q / c1 > 00000004bf000002 / c1 >
00000004bf000003 / s1 > T2 / agree
== roll_busy: Five frames wait still, so a sixth finds no place.
judge; limits 65536 1 5 16; client; hold on; in c1 P (5 times); roll c1; in c1 P; hold off gives
c1 epoch 1 / refused Busy / c1 > Q (5 times) / agree
== roll_probing: The probe comes back, and the Tinit goes out; its Rinit opens the session for the ping.
judge; limits 65536 8 16 16; server probe; roll s1; in s1 0000000f8000000174696e697420636865636b; roll s1; in s1
00000006bc0000010001; roll s1; ping s1 gives
s1 > 0000000f8000000174696e697420636865636b / s1 epoch 1 / s1 > 00000006440000010001 / s1 epoch 2 / s1 epoch 3 /
s1 > P / agree
== roll_draining: The Tdrain is out, and once it is answered no dispatch is taken.
judge; limits 65536 8 16 16; client; drain c1; roll c1; drain c1; in c1 00000004c0000001; roll c1; in c1 T6
gives
c1 > 0000000440000001 / c1 epoch 1 / refused AlreadyDraining / c1 epoch 2 / c1 > N6 / agree
== roll_drained: s1 takes no dispatch more, and answers the one it has.
judge; limits 65536 8 16 16; client; server plain; in c1 T5; offer h1 s1; note h2; in s1 0000000440000001; roll
s1; in c1 T6; offer h3 s1; in s1 R2; settle h4 gives
h1 ticket 1.1.1 / h2 placed 1.1.1 s1 2 / s1 > T2 / noted 1.1.1 / s1 > 00000004c0000001 / s1 epoch 1 / h3 ticket
1.1.2 / refused Drained / h4 settled 1.1.1 / answered 1.1.1 / c1 > R5 / agree
== roll_refused
judge; limits 65536 8 16 16; # No session is there yet.; roll c1; roll s1; client; server plain; roll c2; roll
s2; in c1 T5; in c1 T6; in c1 T7; # Three places, and three kept for each: twelve of sixteen, which is more than
half.; roll c1; offer h1 s1; offer h2 s1; offer h3 s1; # Three places, and two kept for each.; roll s1; # Closed
comes first.; lose c1; lose s1; roll c1; roll s1 gives
refused NoSuchSession (4 times) / h1 ticket 1.1.1 / h2 ticket 1.1.2 / h3 ticket 1.1.3 / refused NoRoom / h4
placed 1.1.1 s1 2 / s1 > T2 / h5 placed 1.1.2 s1 3 / s1 > T3 / h6 placed 1.1.3 s1 4 / s1 > T4 / refused NoRoom /
c1 lost / s1 lost / refused Closed (2 times) / agree
== roll_held: Two places, and three kept for each: eight of sixteen.
judge; limits 65536 8 16 16; client; in c1 T5; in c1 T6; roll c1; in c1 T7; roll c1; nack h3; roll c1 gives
h1 ticket 1.1.1 / h2 ticket 1.1.2 / c1 epoch 1 / h3 ticket 1.1.3 / refused NoRoom / answered 1.1.3 / c1 > N7 /
c1 epoch 2 / agree
== roll_load: Recalled, the first keeps one place and no more two: eight of sixteen in all.
judge; limits 65536 8 16 16; client; server plain; in c1 T5; in c1 T6; in c1 T7; offer h1 s1; offer h2 s1; offer
h3 s1; roll s1; note h4; in c1 X5; recall h7; roll s1 gives
h1 ticket 1.1.1 / h2 ticket 1.1.2 / h3 ticket 1.1.3 / h4 placed 1.1.1 s1 2 / s1 > T2 / h5 placed 1.1.2 s1 3 / s1
> T3 / h6 placed 1.1.3 s1 4 / s1 > T4 / refused NoRoom / noted 1.1.1 / h7 recall 1.1.1 s1 2 / c1 >
00000004be000005 / recalled 1.1.1 / s1 > X2 / s1 epoch 1 / agree
== roll_twice: Nothing was written down between.
judge; limits 65536 8 16 16; client; server plain; in c1 T5; roll c1; roll s1; roll c1; roll s1 gives
h1 ticket 1.1.1 / c1 epoch 1 / s1 epoch 1 / c1 epoch 2 / s1 epoch 2 / agree
== roll_sealed
judge; limits 65536 1 5 16; client; in c1 T5; roll c1; nack h1; in c1 P (9 times); # Eleven records with those
of the roll and of the nack: four places are free, a quarter.; seal c1; roll c1; # The names go on too.; in c1
T5 gives
h1 ticket 1.1.1 / c1 epoch 1 / answered 1.1.1 / c1 > N5 / c1 > Q (9 times) / c1 epoch 2 / c1 epoch 3 / h2 ticket
1.1.2 / agree
== roll_room
judge; limits 65536 1 5 16; client; server plain; in c1 T5; offer h1 s1; note h2; # Two records, two kept, and
one for the end: eleven are free.; in c1 P (12 times); roll c1; # One record, two kept, and one for the end:
twelve are free.; in c1 P (13 times); in s1 R2; settle h3 gives
h1 ticket 1.1.1 / h2 placed 1.1.1 s1 2 / s1 > T2 / noted 1.1.1 / c1 > Q (11 times) / refused Spent / c1 epoch 1
/ c1 > Q (12 times) / refused Spent / h3 settled 1.1.1 / answered 1.1.1 / c1 > R5 / agree
== roll_server_room: One record, two kept, and one for the end: twelve are free, and again behind the roll.
judge; limits 65536 1 5 16; client; server plain; in c1 T5; offer h1 s1; note h2; in s1 P (13 times); roll s1;
in s1 P (13 times); in s1 R2; settle h3 gives
h1 ticket 1.1.1 / h2 placed 1.1.1 s1 2 / s1 > T2 / noted 1.1.1 / s1 > Q (12 times) / refused Spent / s1 epoch 1
/ s1 > Q (12 times) / refused Spent / h3 settled 1.1.1 / answered 1.1.1 / c1 > R5 / agree
== roll_stream_goes_on: The half of a frame that has come isn't lost.
limits 65536 8 16 16; client; server plain; in c1 00000004; in s1 00000004; roll c1; roll s1; in c1 41000001; in
s1 41000001 gives
c1 epoch 1 / s1 epoch 1 / c1 > Q / s1 > Q
== roll_boots: The next boot's sessions begin at epoch 0, and names at its first dispatch.
judge; limits 65536 8 16 16; client; server plain; in c1 T5; roll c1; offer h1 s1; roll s1; restart; client; in
c1 T5; roll c1 gives
h1 ticket 1.1.1 / c1 epoch 1 / h2 placed 1.1.1 s1 2 / s1 > T2 / s1 epoch 1 / agree / boot 2 / h3 ticket 2.1.1 /
c1 epoch 1 / agree
";
