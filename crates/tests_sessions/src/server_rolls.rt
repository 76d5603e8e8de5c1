//! Rows of sessions towards servers that are rolled: all that one holds goes on in the next history.

pub const ROLLS: &str = "\
== roll_while_held: 8 16 16 1 # Its tag stays in use, and its frame is queued.
roll > rolled 0; offer 1 > placed 2; roll > rolled 2; epoch > 2; records > 1; record 0 > Rolled { number: 2 } 0;
load > 1; out Tdispatch 2; offer 2 > placed 3; take Rdispatch 2 > settled 1 -2; record 2 > Settled(-2) 2; roll >
rolled 3; take Rdispatch 2 > dropped; take Rdispatch 3 > settled 2 -2; load > 0
== roll_while_held 2: 8 16 16 1 # Its loss is told, whether it was recalled before the roll or behind it.
offer 1 > placed 2; offer 2 > placed 3; recall 2 3; roll > rolled 3; recall 2 3 > stale; recall 1 2; last
Tdiscarded 2; recall 1 2 > stale; next > none; lose; next > lost 1; next > lost 2; next > none; finished > true;
records > 5
== roll_no_room: 8 16 16 1 # A place taken and two kept, or one once it is recalled: nine of sixteen, then eight.
offer 1 > placed 2; offer 2 > placed 3; roll > rolled 2; offer 3 > placed 4; roll > NoRoom; epoch > 1; records >
2; record 0 > Rolled { number: 1 } 0; record 1 > Offered 4; load > 3; queued > 3; recall 1 2; roll > rolled 3;
take Rdiscarded 2 > settled 1 -66; take Rdispatch 3 > settled 2 -2; take Rdispatch 4 > settled 3 -2; load > 0
== roll_closed: 8 16 16 1 # Closed stands before NoRoom.
offer 1 > placed 2; offer 2 > placed 3; offer 3 > placed 4; roll > NoRoom; lose; roll > Closed; next > lost 1;
next > lost 2; next > lost 3; finished > true; roll > Closed; epoch > 0
== roll_makes_room: 1 5 16 1 # Twelve pings beside a dispatch, behind each roll too.
offer 1 > placed 2; out Tdispatch 2; now 1000; pings 12; take Tping 1 > Spent; roll > rolled 13; pings 12; take
Tping 1 > Spent; roll > rolled 13; pings 12; take Tping 1 > Spent; take Rdispatch 2 > settled 1 -2; records > 14
== roll_keeps_the_copy: 8 16 16 1 # A nack brings the dispatch back, where its ticket had a try left.
offer 1 1 > placed 2; offer 2 0 > placed 3; roll > rolled 2; take Nack 2 > settled 1 -2 again; take Nack 3 >
settled 2 -2; record 1 > SettledNack 2; record 2 > SettledNack 3
== roll_keeps_the_lease: 8 16 16 1 # The clock's reading goes on too: an earlier moment counts as the latest one.
now 1000; take Tlease 0; roll > rolled 1; now 10999; offer 1 > placed 2; roll > rolled 2; now 11000; offer 2 >
Lapsed; clock; roll > rolled 2; now 5000; offer 2 > Lapsed; now 11000; take Rdispatch 2 > settled 1 -2
== roll_keeps_the_ping: 8 16 16 1 # A ping that is out stays so until its Rping, which ends it behind the roll.
ping; roll > rolled 1; ping > Outstanding; out Tping 1; take Rping 1; record 1 > PingDone 1; roll > rolled 2;
ping; out Tping 1
== roll_keeps_the_drain: 8 16 16 1 # A server that drains takes no dispatch; what it holds is answered.
offer 1 > placed 2; take Tdrain 1; roll > rolled 2; offer 2 > Drained; out Tdispatch 2; out Rdrain 1; finished >
false; take Rdispatch 2 > settled 1 -2; finished > true
== roll_keeps_the_drain 2: 8 16 16 1 # Nor does one that is retired.
retire; roll > rolled 1; offer 1 > Retired; finished > true
== roll_keeps_the_initiation: 8 16 16 1 probe
roll > rolled 0; out Rerr 1 tinit check; take Rerr 1 tinit check; roll > rolled 2; offer 1 > NotOpen; out Tinit
1; take Rinit 1; roll > rolled 2; offer 1 > placed 2
== rolled_while_held: 1 5 16 0 # The next history has the record of the roll alone, at the reading of the one before.
offer 1 > placed 2; now 3; clock; roll > rolled 2; epoch > 1; records > 1; record 0 > Rolled { number: 1 } 0;
reading 0 > 3; load > 1; queued > 1; recall 1 2; roll > rolled 2; epoch > 2; recall 1 2 > stale; now 5; take
Rdispatch 2 > settled 1 -2; load > 0; records > 2; record 0 > Rolled { number: 2 } 0; record 1 > Settled(-2) 2;
outs > 2; now 0; offer 2 > placed 2; roll > rolled 3; now 6; lose; roll > Closed; next > lost 2; finished >
true; records > 3
";
