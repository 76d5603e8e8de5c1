//! Rows of sessions towards servers.

pub const ROWS: &str = "\
== row_4: 1024 2048 65536 1
out Tdispatch 2 > none; offer 1 > placed 2; out Tdispatch 2; take Rdispatch 2 > settled 1 -2; load > 0; record 0
> Offered 2; record 1 > Settled(-2) 2
== row_7: 1024 2048 65536 1
offer 1 > placed 2; offer 2 > placed 3; out Tdispatch 2; out Tdispatch 3; take Rdispatch 2 > settled 1 -2; take
Rdispatch 3 > settled 2 -2
== row_8_recall: 1024 2048 65536 1
offer 1 > placed 2; recall 1 2; recall 1 2 > stale; out Tdispatch 2; out Tdiscarded 2; out Tdiscarded 2 > none;
load > 1; take Rdiscarded 2 > settled 1 -66
== row_9_stale_recall: 1024 2048 65536 1
offer 1 > placed 2; take Rdispatch 2 > settled 1 -2; offer 2 > placed 2; recall 1 2 > stale; records > 3
== row_10_leases: 1024 2048 65536 1
now 1000; take Tlease 0; now 10999; offer 1 > placed 2; now 11000; clock; offer 2 > Lapsed; now 5000; offer 2 >
Lapsed; take Tlease 0; offer 2 > placed 3; now 21000; offer 3 > Lapsed; now 20999; offer 3 > placed 4
== lease_near_the_end_of_time: 1024 2048 65536 1
now 18446744073709551614; take Tlease 0; offer 1 > placed 2; now 18446744073709551615; offer 2 > Lapsed
== row_11_draining: 1024 2048 65536 1
offer 1 > placed 2; out Tdispatch 2; take Tdrain 1; out Rdrain 1; take Tdrain 9; out Rdrain 9; offer 2 >
Drained; take Tlease 0; offer 2 > Drained; finished > false; take Rdispatch 2 > settled 1 -2; finished > true
== row_13_losses: 1024 2048 65536 1
offer 1 > placed 2; offer 2 > placed 3; offer 3 > placed 4; recall 2 3; next > none; lose; lose; out Tdispatch 2
> none; recall 1 2 > stale; next > lost 1; next > lost 2; next > lost 3; next > none; offer 4 > Closed; take
Tping 1 > Closed; finished > true; queued > 4; last Tdiscarded 3; records > 8
== row_17_room_for_one: 1 8 64 1
offer 1 > placed 2; offer 2 > Full; take Empty 9 > dropped; take Rdispatch 2 > settled 1 -2; take Rdispatch 2 >
dropped
== row_23_probe_and_pings: 8 16 64 1 probe
offer 1 > NotOpen; ping > NotOpen; out Rerr 1 tinit check; take Rerr 1 tinit check; out Tinit 1; take Rinit 1;
ping; out Tping 1; ping > Outstanding; take Rping 1; ping; offer 1 > placed 2; lose; ping > Closed
== row_27_retired: 1024 2048 65536 1
retire; offer 1 > Retired; retire; finished > true; records > 2
== spent_server: 8 16 16 1
offer 1 > placed 2; offer 2 > placed 3; offer 3 > placed 4; offer 4 > placed 5; offer 5 > placed 6; offer 6 >
Spent; clock > Spent; retire > Spent; ping > Spent; take Tping 1 > Spent; take Rdispatch 2 > settled 1 -2
== busy: 1 5 64 1 # With no place left in the queue a final reply still settles.
offer 1 > placed 2; take Tping 7; take Tping 7; take Tping 7; take Tping 7 > Busy; ping > Busy; take Rdispatch 2
> settled 1 -2; offer 2 > Full; queued > 4
== causes_in_their_order: 1 5 16 1 probe # Each cause to refuse an offer stands before those that come after it.
retire; take NoLease 0; take Tdrain 3; offer 1 > NotOpen; take OldRerr 1 what; offer 1 > Drained; take Treq 4;
out Rerr 1 tinit check; out Rdrain 3; out Rerr 4 unsupported; take Broken 2 > closed BadBody { place: 0 }; offer
1 > Closed
== causes_in_their_order 2: 1024 2048 65536 1
take NoLease 0; offer 1 > Lapsed; retire; offer 1 > Retired; take Tping 8388609 > closed Fragment
== row_28_sent_again: 1024 2048 65536 1
offer 1 1 > placed 2; out Tdispatch 2; take Nack 2 > settled 1 -2 again; offer 1 0 > placed 2; out Tdispatch 2;
take Nack 2 > settled 1 -2; record 1 > SettledNack 2; record 3 > SettledNack 2
== name_offered_twice: 1024 2048 65536 1 # A name may come twice: a recall marks the sending on its tag alone.
offer 1 1 > placed 2; recall 1 2; offer 1 1 > placed 3; recall 1 2 > stale; recall 1 3; take Rdispatch 3 >
settled 1 -2 again; take Rdiscarded 2 > settled 1 -66 again; load > 0
== row_30_seals: 1 5 16 1
pings 10; seal > NotFull; take Tping 1; seal > NotQuiet; out Rping 1; seal > sealed 11; epoch > 1; records > 1;
pings 14; take Tping 1 > Spent; lose; seal > Closed
== row_32_lease_over_a_seal: 1 5 16 1
now 1000; take Tlease 0; pings 10; seal > sealed 11; now 11000; offer 1 > Lapsed; now 10999; offer 1 > placed 2
== frames_by_one_exchange: 1 5 16 1 # The whole queue comes by one exchange, and nothing once the session is closed.
take Tping 7; take Tping 8; outs Rping 7, Rping 8 > 2; queued > 0
== offer_and_reply: 16 64 256 0
plain > true; offer 1 > placed 2; offer 2 > placed 3; queued > 2; last Tdispatch 3; out Tdispatch 2; recall 2 3;
now 5; take Rdispatch 2 > settled 1 -2; load > 1; records > 4; record 0 > Offered 2; record 1 > Offered 3;
record 2 > Discarding 3; record 3 > Settled(-2) 2
== last_of_all: 16 64 256 0
offer 7 > placed 2; now 3; clock; now 4; ping; now 5; retire; finished > false; next > none; now 6; lose; now 7;
lose; next > lost 7; next > none; finished > true; records > 6; reading 5 > 6
== sealed_when_full: 1 5 16 0
clock; now 1; clock; now 2; clock; now 3; clock; now 4; clock; now 5; clock; now 6; clock; now 7; clock; now 8;
clock; now 9; clock; now 10; clock; outs > 0; seal > sealed 11; epoch > 1; records > 1
";
