//! Rows of sessions towards clients.

pub const ROWS: &str = "\
== row_1_ping: 8 16 64 0
pings 1; record 0 > Ponged 1
== row_4: 8 16 64 0
out Rdispatch 5 > none; take Tdispatch 5 > ticket 1 5 0; note 1 2; settle 1 Rdispatch 2 > answered; out
Rdispatch 5; load > 0; record 0 > Took 5; record 1 > Noted { recalled: false } 5; record 2 > Passed 5
== row_6_probe: 8 16 64 0 # The probe goes back in the type that it came in.
take OldRerr 1 tinit check; out OldRerr 1 tinit check; take Tinit 1; out Rinit 1; take OldRerr 1 tinit check;
out OldRerr 1 tinit check > none; record 0 > Echoed 1; record 1 > InitDone 1; record 2 > Ignored 1
== row_6_probe 2: 8 16 64 0
take Rerr 1 tinit check; out Rerr 1 tinit check; take Tinit 1; out Rinit 1; take Rerr 1 tinit check; out Rerr 1
tinit check > none; record 0 > Echoed 1; record 1 > InitDone 1; record 2 > Ignored 1
== row_7_discarded: 8 16 64 0
take Tdispatch 5 > ticket 1 5 0; note 1 2; take Tdiscarded 5 > recall 1 2 x; out Rdiscarded 5; take Tdispatch 5
> ticket 2 5 0; note 2 3; settle 1 Rdispatch 2 > late; out Rdispatch 5 > none; settle 2 Rdispatch 2 > answered;
out Rdispatch 5; record 2 > Discarded { recalled: true } 5; record 5 > Late { whole: false } 5
== row_8_discarded_before_its_note: 8 16 64 0
take Tdispatch 5 > ticket 1 5 0; take Tdiscarded 5; out Rdiscarded 5; note 1 2 > recall 1 2 x; note 1 2 > not
mine; settle 1 Rdiscarded 2 > late; record 2 > Noted { recalled: true } 5; load > 0
== row_8_discarded_before_its_note 2: 8 16 64 0
take Tdispatch 5 > ticket 1 5 0; take Tdiscarded 5; out Rdiscarded 5; settle 1 Rdispatch 2 > late; note 1 2; out
Rdispatch 5 > none; load > 0
== row_9_of_another: 8 16 64 0 # What is of another client, of another boot, or not due is handed back.
take Tdispatch 5 > ticket 1 5 0; all 1 2 1 > not mine; all 2 1 1 > not mine; all 1 1 2 > not mine; all 1 1 0 >
not mine; records > 1; note 1 2; nack 1 > not mine; unroute 1 > not mine; fail 1 > answered; settle 1 Rdispatch
2 > not mine; fail 1 > not mine; out Rerr 5 upstream lost
== row_12_draining: 8 16 64 0 # An Rdrain on another tag answers nothing.
drain; out Tdrain 1; take Tdispatch 5 > ticket 1 5 0; take Rdrain 2; take Tdispatch 7 > ticket 2 7 0; take
Rdrain 1; take Tdispatch 6; out Nack 6; drain > AlreadyDraining; note 1 2; settle 1 Rdispatch 2 > answered; out
Rdispatch 5; finished > false; nack 2 > answered; finished > true; record 2 > Ignored 2; record 4 > DrainAcked
1; record 5 > TookDrained 6
== row_13_server_lost: 8 16 64 0
take Tdispatch 5 > ticket 1 5 0; take Tdispatch 6 > ticket 2 6 0; take Tdispatch 7 > ticket 3 7 0; note 1 2;
note 2 3; note 3 4; take Tdiscarded 6 > recall 2 3 x; out Rdiscarded 6; fail 1 > answered; out Rerr 5 upstream
lost; fail 2 > late; fail 3 > answered; out Rerr 7 upstream lost; load > 0
== row_14_client_gone: 8 16 64 0
take Tdispatch 5 > ticket 1 5 0; note 1 2; next > none; take Tdispatch 5 > closed TagInUse; next > recall 1 2
client gone; next > none; settle 1 Rdiscarded 2 > late; finished > true; record 2 > Closed(TagInUse) 0; record 3
> Recalled 5
== row_14_client_gone 2: 8 16 64 0
take Tdispatch 0 > closed TagZero
== recalls_of_a_lost_client: 8 16 64 0 # Each recall is given once, with the client's reason where it gave one.
take Tdispatch 5 > ticket 1 5 0; take Tdispatch 6 > ticket 2 6 0; take Tdispatch 7 > ticket 3 7 0; take
Tdispatch 8 > ticket 4 8 0; note 4 9; note 2 8; take Tdiscarded 5; lose; lose; out Rdiscarded 5 > none; next >
recall 2 8 client gone; note 1 2 > recall 1 2 x; next > recall 4 9 client gone; next > none; note 3 3 > recall 3
3 client gone; next > none; settle-copied 2 Nack 2 > late; fail 4 > late; take Tping 1 > Closed; drain > Closed;
seal > Closed; load > 2; finished > false; queued > 1; last Rdiscarded 5; records > 14
== row_21_unsupported: 8 16 64 0
take Treq 3; out Rerr 3 unsupported; take Tdrain 3; out Rerr 3 unsupported; take Treq 0; out Rerr 0 unsupported
> none; record 0 > Unsupported 3; record 2 > Ignored 0
== row_22_out_of_place: 8 16 64 0
take Tdispatch 5 > ticket 1 5 0; take Tinit 1; out Rerr 1 tinit out of place; unroute 1 > answered; out Rerr 5
no route; record 1 > OutOfPlace 1; record 2 > Unrouted 5
== row_23_unasked: 8 16 64 0 # Answers that nobody asked for are ignored, and a Tdiscarded of a tag that isn't in use.
take Rping 1; take Rinit 1; take Rdrain 1; take Rdispatch 5; take Tdiscarded 5; out Rdiscarded 5 > none; records
> 5
== row_24_spent: 8 16 16 0
take Tdispatch 5 > ticket 1 5 0; take Tdispatch 6 > ticket 2 6 0; take Tdispatch 7 > ticket 3 7 0; take
Tdispatch 8 > Spent; take Tping 1; out Rping 1
== row_25_busy: 1 5 64 0
take Tping 1; take Tping 1; take Tping 1; take Tping 1; take Tping 1; take Tping 1 > Busy
== row_25_busy 2: 1 5 64 0 # The note is due still, so the place is taken.
take Tdispatch 5 > ticket 1 5 0; take Tdispatch 6 > Busy; settle 1 Rdispatch 2 > answered; take Tdispatch 6 >
Busy; note 1 2; take Tdispatch 6 > ticket 2 6 0
== out_full: 1 5 64 0 # With the list of frames full to the last place a reply still goes out.
take Tdispatch 5 > ticket 1 5 0; take Tping 1; take Tping 1; take Tping 1; take Tping 1; take Tping 1 > Busy;
take Tdiscarded 5 > Busy; drain > Busy; seal > NotQuiet; nack 1 > answered; queued > 5; last Nack 5
== history_full: 1 5 16 0 # With the history full to the last place what is due still comes, and the end.
take Tdispatch 5 > ticket 1 5 0; pings 11; take Tping 1 > Spent; take Tdiscarded 5 > Spent; drain > Spent; note
1 2; take Tping 1 > Spent; lose; next > recall 1 2 client gone; settle 1 Rdispatch 2 > late; finished > true;
records > 16
== row_27_nacked: 8 16 64 0
take Tdispatch 5 > ticket 1 5 0; nack 1 > answered; out Nack 5; take Tdispatch 5 > ticket 2 5 0; take Tdiscarded
5; out Rdiscarded 5; nack 2 > late; out Nack 5 > none; record 1 > Nacked 5; record 4 > Late { whole: true } 5;
load > 0
== row_28_sent_again: 8 16 64 1
take Tdispatch 5 > ticket 1 5 1; note 1 2; settle-copied 1 Nack 2 > again 1 5 0; out Nack 5 > none; note 1 2;
settle-copied 1 Nack 2 > answered; out Nack 5; record 2 > Retried 5; record 4 > Passed 5
== row_29_not_sent_again: 8 16 64 1 # A nack goes out if its note is due, no copy came with it, or the status is no 2.
take Tdispatch 5 > ticket 1 5 1; settle-copied 1 Nack 2 > answered; out Nack 5; note 1 2; take Tdispatch 5 >
ticket 2 5 1; note 2 2; settle 2 Nack 2 > answered; out Nack 5; take Tdispatch 5 > ticket 3 5 1; note 3 2;
settle-copied 3 Failure 2 > answered; out Failure 5; take Tdispatch 5 > ticket 4 5 1; note 4 2; take Tdiscarded
5 > recall 4 2 x; out Rdiscarded 5; settle-copied 4 Nack 2 > late; load > 0
== row_30_seals: 1 5 16 0
pings 10; seal > NotFull; take Tping 1; seal > NotQuiet; out Rping 1; seal > sealed 11; epoch > 1; records > 1;
pings 14; take Tping 1 > Spent
== row_31_number_over_a_seal: 1 5 16 0 # The numbers go on over a seal.
take Tdispatch 5 > ticket 1 5 0; seal > NotQuiet; nack 1 > answered; out Nack 5; pings 9; seal > sealed 11; note
1 2 > not mine; take Tdispatch 5 > ticket 2 5 0
== discarded_twice: 8 16 64 0
take Tdispatch 5 > ticket 1 5 0; take Tdiscarded 5; take Tdiscarded 5; out Rdiscarded 5; out Rdiscarded 5 >
none; note 1 2 > recall 1 2 x; record 1 > Discarded { recalled: false } 5; record 2 > Ignored 0
== frames_by_one_exchange: 1 5 16 0 # The whole queue comes by one exchange, and nothing once the session is closed.
take Tping 7; take Tping 8; outs Rping 7, Rping 8 > 2; queued > 0; take Tping 7; take Tping 8; lose; outs > 0;
queued > 2
== greatest_limits: 65536 1048576 16777216 3
take Tdispatch 8388607 > ticket 1 8388607 3; settle 1 Rdispatch 2 > answered; out Rdispatch 8388607; note 1 2;
finished > false
";

/// With all that they write down.
pub const ROWS_TOLD: &str = "\
== a_record_for_each_frame: 8 16 64 1 # Each frame is one record, of that frame, and a frame that is refused is none.
now 3; take Tping 9 > done | Ponged 9; now 2; take Tdispatch 5 > ticket 1 5 1 | Took 5; now 7; take Treq 6 >
done | Unsupported 6; take Rping 1 > done | Ignored 1; now 8; take Tdiscarded 5 > done | Discarded { recalled:
false } 5; now 9; take Tdispatch 5 > ticket 2 5 1 | Took 5; take Tdispatch 5 > closed TagInUse |
Closed(TagInUse) 0; take Tping 1 > Closed; now 10; lose; drain > Closed; seal > Closed
== answers: 8 16 64 1 # What the session holds is what its records say, after each answer that a dispatch can have.
take Tdispatch 5 > ticket 1 5 1 | Took 5; note 2 2 > not mine; note 1 2 > done | Noted { recalled: false } 5;
nack 1 > not mine; settle-copied 1 Nack 2 > again 1 5 0 | Retried 5; note 1 3 > done | Noted { recalled: false }
5; settle 1 Rdispatch 2 > answered | Passed 5; settle 1 Rdispatch 2 > not mine; out Rdispatch 5; take Tdispatch
5 > ticket 2 5 1 | Took 5; take Tdispatch 6 > ticket 3 6 1 | Took 6; take Tdispatch 7 > ticket 4 7 1 | Took 7;
nack 2 > answered | Nacked 5; unroute 3 > answered | Unrouted 6; fail 4 > answered | Failed 7; finished > false;
note 4 4 > done | Noted { recalled: false } 7; last Rerr 7 upstream lost; queued > 3; outs > 3; out Rdispatch 5
> none
== lost: 8 16 64 1 # A recall is given once, and a reply that comes late goes nowhere.
now 1; take Tdispatch 5 > ticket 1 5 1 | Took 5; take Tdispatch 6 > ticket 2 6 1 | Took 6; note 1 2 > done |
Noted { recalled: false } 5; drain > done | DrainAsked 1; drain > AlreadyDraining; take Rdrain 1 > done |
DrainAcked 1; take Tdispatch 7 > done | TookDrained 7; now 2; take Tdiscarded 5 > recall 1 2 x | Discarded {
recalled: true } 5; now 4; lose > done | Lost 0; next > none; note 2 3 > recall 2 3 client gone | Noted {
recalled: true } 6; next > none; finished > false; settle 1 Rdispatch 2 > late | Late { whole: false } 5; fail 2
> late | Late { whole: false } 6; finished > true; out Tdrain 1 > none
== sealed_when_full: 1 5 16 0 # A history that is full is handed back whole, and the numbers go on.
take Tdispatch 5 > ticket 1 5 0 | Took 5; seal > NotQuiet; nack 1 > answered | Nacked 5; take Tping 1 > done |
Ponged 1; take Tping 1 > done | Ponged 1; outs > 3; seal > NotFull; take Tping 1 > done | Ponged 1; take Tping 1
> done | Ponged 1; take Tping 1 > done | Ponged 1; outs > 3; take Tping 1 > done | Ponged 1; take Tping 1 > done
| Ponged 1; take Tping 1 > done | Ponged 1; outs > 3; take Tping 1 > done | Ponged 1; out Rping 1; seal > sealed
11; epoch > 1; note 1 2 > not mine; take Tdispatch 5 > ticket 2 5 0 | Took 5; unroute 2 > answered | Unrouted 5
";
