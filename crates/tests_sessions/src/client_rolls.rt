//! Rows of sessions towards clients that are rolled: all that one holds goes on in the next history.

pub const ROLLS: &str = "\
== roll_while_held: 8 16 16 0 # Rolled before the note and before the reply. The numbers go on.
roll > rolled 0; take Tdispatch 5 > ticket 1 5 0; roll > rolled 2; epoch > 2; records > 1; record 0 > Rolled {
number: 2 } 0; load > 1; note 1 2; roll > rolled 2; load > 1; settle 1 Rdispatch 2 > answered; out Rdispatch 5;
load > 0; record 0 > Rolled { number: 3 } 0; record 1 > Passed 5; settle 1 Rdispatch 2 > not mine; take
Tdispatch 5 > ticket 2 5 0
== roll_while_held 2: 8 16 64 0 # Each other answer.
take Tdispatch 5 > ticket 1 5 0; take Tdispatch 6 > ticket 2 6 0; take Tdispatch 7 > ticket 3 7 0; note 3 2;
roll > rolled 4; all 1 1 4 > not mine; nack 3 > not mine; nack 1 > answered; unroute 2 > answered; fail 3 >
answered; out Nack 5; out Rerr 6 no route; out Rerr 7 upstream lost; load > 0; records > 4
== roll_while_held 3: 8 16 16 0 # The tag stays in use, and the recall goes to the place that was noted before.
take Tdispatch 5 > ticket 1 5 0; note 1 2; roll > rolled 2; take Tdispatch 5 > closed TagInUse; next > recall 1
2 client gone; next > none; settle 1 Rdispatch 2 > late; finished > true
== roll_no_room: 8 16 16 0 # A place taken, and three kept, two once noted, one once recalled: nine of 16, then eight.
take Tdispatch 5 > ticket 1 5 0; take Tdispatch 6 > ticket 2 6 0; roll > rolled 2; take Tdispatch 7 > ticket 3 7
0; roll > NoRoom; epoch > 1; records > 2; record 0 > Rolled { number: 1 } 0; record 1 > Took 7; load > 3; note 1
2; note 2 3; note 3 4; roll > NoRoom; take Tdiscarded 5 > recall 1 2 x; roll > rolled 6; settle 1 Rdispatch 2 >
late; settle 2 Rdispatch 2 > answered; settle 3 Rdispatch 2 > answered; out Rdiscarded 5; out Rdispatch 6; out
Rdispatch 7; load > 0
== roll_no_room 2: 8 16 64 3 # Ten places each, six of them for tries: of 64 thirty may be taken, and not forty.
take Tdispatch 5 > ticket 1 5 3; take Tdispatch 6 > ticket 2 6 3; take Tdispatch 7 > ticket 3 7 3; roll > rolled
3; take Tdispatch 8 > ticket 4 8 3; roll > NoRoom; load > 4; nack 4 > answered; roll > rolled 3
== roll_closed: 8 16 16 0 # Closed stands before NoRoom.
take Tdispatch 5 > ticket 1 5 0; take Tdispatch 6 > ticket 2 6 0; take Tdispatch 7 > ticket 3 7 0; note 1 2;
roll > NoRoom; lose; roll > Closed; nack 2 > late; nack 3 > late; next > recall 1 2 client gone; settle 1
Rdispatch 2 > late; finished > true; roll > Closed; epoch > 0
== roll_closed 2: 8 16 16 0
take Tdispatch 0 > closed TagZero; roll > Closed
== roll_makes_room: 1 5 16 0 # Eleven pings beside a dispatch that is noted, and twelve behind each roll.
take Tdispatch 5 > ticket 1 5 0; note 1 2; pings 11; take Tping 1 > Spent; roll > rolled 13; pings 12; take
Tping 1 > Spent; roll > rolled 13; pings 12; take Tping 1 > Spent; settle 1 Rdispatch 2 > answered; out
Rdispatch 5; records > 14
== roll_keeps_what_is_due: 8 16 16 0 # A recall is owed, and given at the note, with the reason of the Tdiscarded.
take Tdispatch 6 > ticket 1 6 0; take Tdiscarded 6; roll > rolled 2; queued > 1; out Rdiscarded 6; note 1 2 >
recall 1 2 x; record 1 > Noted { recalled: true } 6; settle 1 Rdispatch 2 > late; out Rdispatch 6 > none; load >
0
== roll_keeps_what_is_due 2: 8 16 16 0 # The recall was given before.
take Tdispatch 5 > ticket 1 5 0; note 1 2; take Tdiscarded 5 > recall 1 2 x; roll > rolled 3; lose; next > none;
settle 1 Rdiscarded 2 > late; finished > true
== roll_keeps_what_is_due 3: 8 16 16 0 # The note alone is due.
take Tdispatch 5 > ticket 1 5 0; settle 1 Rdispatch 2 > answered; roll > rolled 2; load > 1; settle 1 Rdispatch
2 > not mine; out Rdispatch 5; note 1 2; load > 0
== roll_keeps_what_is_due 4: 8 16 16 0 # The place was noted before.
take Tdispatch 5 > ticket 1 5 0; note 1 2; roll > rolled 2; note 1 2 > not mine; take Tdiscarded 5 > recall 1 2
x; out Rdiscarded 5; take Tdiscarded 5; out Rdiscarded 5 > none
== roll_keeps_the_copy: 8 16 64 1 # A try that is left stays so, and one that was used too.
take Tdispatch 5 > ticket 1 5 1; note 1 2; roll > rolled 2; settle-copied 1 Nack 2 > again 1 5 0; out Nack 5 >
none; roll > rolled 2; note 1 3; settle-copied 1 Nack 2 > answered; out Nack 5; record 0 > Rolled { number: 2 }
0; record 2 > Passed 5
== roll_keeps_the_drain: 8 16 16 0
drain; roll > rolled 1; drain > AlreadyDraining; out Tdrain 1; take Tdispatch 5 > ticket 1 5 0; take Rdrain 1;
record 2 > DrainAcked 1; roll > rolled 3; take Tdispatch 6; record 1 > TookDrained 6; out Nack 6; finished >
false; nack 1 > answered; finished > true
== roll_keeps_the_initiation: 8 16 16 0 # A Tinit is out of place once a dispatch has come, in whatever history.
roll > rolled 0; take Tinit 1; out Rinit 1; roll > rolled 2; take Tinit 2; out Rerr 2 tinit out of place
== roll_keeps_the_initiation 2: 8 16 16 0
take Tdispatch 5 > ticket 1 5 0; roll > rolled 1; take Tinit 1; out Rerr 1 tinit out of place
== roll_keeps_the_frames: 1 5 16 0 # Queued frames stay so, in their order, before later ones. A full queue is full.
take Tping 1; take Tping 2; roll > rolled 2; queued > 2; last Rping 2; take Tping 3; take Tping 4; take Tping 5;
roll > rolled 4; take Tping 6 > Busy; outs Rping 1, Rping 2, Rping 3, Rping 4, Rping 5 > 5
";

/// With all that they write down.
pub const ROLLS_TOLD: &str = "\
== rolled_while_held: 8 16 64 1 # What is held is what the records of all histories say. That of a roll is the first.
now 3; take Tdispatch 5 > ticket 1 5 1 | Took 5; take Tdispatch 6 > ticket 2 6 1 | Took 6; now 4; take
Tdiscarded 5 > done | Discarded { recalled: false } 5; roll > rolled 3 | Rolled { number: 1 } 0; queued > 1;
note 1 2 > recall 1 2 x | Noted { recalled: true } 5; note 2 3 > done | Noted { recalled: false } 6;
settle-copied 2 Nack 2 > again 2 5 0 | Retried 6; roll > rolled 4 | Rolled { number: 2 } 0; epoch > 2; settle 1
Rdispatch 2 > late | Late { whole: false } 5; note 2 3 > done | Noted { recalled: false } 6; settle-copied 2
Nack 2 > answered | Passed 6; note 2 3 > not mine; outs > 2; now 5; take Tdispatch 5 > ticket 3 5 1 | Took 5;
now 6; lose > done | Lost 0; roll > Closed
== rolled_while_held 2: 2 6 16 1 # One with a try left keeps five records: of sixteen places two of these are too many.
take Tdispatch 5 > ticket 1 5 1 | Took 5; roll > rolled 1 | Rolled { number: 1 } 0; take Tdispatch 6 > ticket 2
6 1 | Took 6; roll > NoRoom; epoch > 1; unroute 1 > answered | Unrouted 5; roll > rolled 3 | Rolled { number: 2
} 0; nack 2 > answered | Nacked 6
";
