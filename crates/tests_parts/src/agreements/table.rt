//! Histories, and the first fault in them.

/// Lines `TITLE | HISTORIES | ok`, or ` | SESSION PLACE CAUSE`.
pub const TABLE: &str = "\
passed on and nacked | c1: took 5 1, noted 5 1, passed 5 1, took 5 2, nacked 5 2; s1: offered 2 1, settled 2 1 | ok
failed, and discarded | c1: took 5 1, failed 5 1, took 5 2, discarded 5 2, late 5 2; s1: offered 2 1, offered 3 2, settled 3 2, lostone 2 1 | ok
offered twice | c1: took 5 1; s1: offered 2 1, offered 3 1 | s1 0 SentTwice
offered by two servers | c1: took 5 1; s1: offered 2 1; s2: offered 2 1 | s1 0 SentTwice
offered again before the nack | c1: took 5 1, noted 5 1, retried 5 1; s1: offered 2 1 | c1 2 SentTwice
offered thrice, retried once | c1: took 5 1, noted 5 1, retried 5 1; s1: offered 2 1, back 2 1, offered 2 1, offered 3 1 | s1 0 SentTwice
offered again after an answer | c1: took 5 1, noted 5 1; s1: offered 2 1, settled 2 1, offered 2 1 | s1 0 SentTwice
nacked, with two tags | c1: took 5 1, discarded 5 1, nacked 5 1 | c1 2 AnsweredTwice
unrouted twice | c1: took 5 1, unrouted 5 1, took 6 1, unrouted 6 1 | c1 3 AnsweredTwice
nobody took it | s1: offered 2 1 | s1 0 NeverSent
a server took it | s1: took 5 1, offered 2 1 | s1 1 NeverSent
another name | c1: took 5 1; s1: offered 2 1, offered 3 2 | s1 1 NeverSent
no reply came | c1: took 5 1, passed 5 1; s1: offered 2 1 | c1 1 NeverSent
no server was sent it | c1: took 5 1, passed 5 1; s1: settled 2 1 | c1 1 NeverSent
passed on while a sending is out | c1: took 5 1, noted 5 1, retried 5 1, passed 5 1; s1: offered 2 1, back 2 1, offered 2 1 | c1 3 NeverSent
it failed unsent | c1: took 5 1, failed 5 1 | c1 1 NeverSent
an offer without a name | c1: took 5 1; s1: offered 2 - | s1 0 NeverSent
offered though refused | c1: refused 5 1; s1: offered 2 1 | s1 0 NackOfSent
offered though nacked | c1: took 5 1, nacked 5 1; s1: offered 2 1 | s1 0 NackOfSent
offered though unrouted | c1: took 5 1, unrouted 5 1; s1: offered 2 1 | s1 0 NackOfSent
nacked while a sending is out | c1: took 5 1, noted 5 1, retried 5 1, nacked 5 1; s1: offered 2 1, offered 3 1, back 2 1 | s1 0 NackOfSent
nacked though answered | c1: took 5 1, noted 5 1, retried 5 1, nacked 5 1; s1: offered 2 1, settled 2 1, offered 2 1, back 2 1 | s1 0 NackOfSent
nacked after a nack | c1: took 5 1, noted 5 1, retried 5 1, nacked 5 1; s1: offered 2 1, back 2 1 | ok
failed though answered | c1: took 5 1, failed 5 1; s1: offered 2 1, settled 2 1 | c1 1 LostButSettled
failed though answered and lost | c1: took 5 1, failed 5 1; s1: offered 2 1, settled 2 1, lostone 2 1 | c1 1 LostButSettled
failed, and not lost | c1: took 5 1, failed 5 1; s1: offered 2 1, lost | c1 1 LostButSettled
failed and lost | c1: took 5 1, failed 5 1; s1: offered 2 1, lost, lostone 2 1 | ok
lost after a nack | c1: took 5 1, noted 5 1, retried 5 1, noted 5 1, failed 5 1; s1: offered 2 1, back 2 1, offered 2 1, lost, lostone 2 1 | ok
a tag that is taken | c1: took 5 1, took 5 2 | c1 1 TagOpen
a tag that is offered | c1: took 5 1, took 6 2; s1: offered 2 1, offered 2 2 | s1 1 TagOpen
a reply on another tag | c1: took 5 1; s1: offered 2 1, settled 3 1 | s1 1 TagOpen
a reply under another name | c1: took 5 1, took 6 2; s1: offered 2 1, settled 2 2 | s1 1 TagOpen
a nack on another tag | c1: took 5 1; s1: offered 2 1, back 3 1 | s1 1 TagOpen
an answer under another name | c1: took 5 1, took 6 2, nacked 5 2 | c1 2 TagOpen
an end without a name | c1: took 5 1, nacked 5 - | c1 1 TagOpen
a dispatch without a name | c1: took 5 -, took 5 1 | ok
offered after the drain | c1: took 5 1; s1: drained 1, offered 2 1 | s1 1 AfterDrain
drained after the offer | c1: took 5 1; s1: offered 2 1, drained 1 | ok
another server drained | c1: took 5 1, took 6 2; s1: offered 2 1, drained 1, leased=0; s2: offered 2 2 | ok
at the lapse | c1: took 5 1; s1: leased=10 0 - 5, offered 2 1 15 | s1 1 Lapsed
before the lapse | c1: took 5 1; s1: leased=10 0 - 5, offered 2 1 14 | ok
the last lease counts | c1: took 5 1; s1: leased=10 0 - 5, leased=18446744073709551615 0 - 5, offered 2 1 15 | ok
leased after the offer | c1: took 5 1; s1: offered 2 1 20, leased=0 0 - 20 | ok
twice on an open tag | c1: took 5 1; s1: offered 2 1, offered 2 1 | s1 0 SentTwice
drained and lapsed | c1: took 5 1; s1: leased=0, drained 1, offered 2 1 | s1 2 AfterDrain
clients come first | c1: took 5 1, took 5 2; s1: offered 2 1, offered 2 1 | c1 1 TagOpen
the first client at fault | c1: took 5 1; c2: took 5 2.1, took 5 2.2; s1: offered 2 7 | c2 1 TagOpen
the next epoch | s1: inited / up=1:- / up=2:- | ok
the same epoch again | s1: inited / up=1:- / up=1:- | s1 2 BadEpoch
a lease that was not granted | s1: inited / up=1:7 | s1 1 BadEpoch
a lease that is forgotten | s1: leased=10 0 - 5 / up=1:- 0 - 5 | s1 1 BadEpoch
a lease that is kept | c1: took 5 1; s1: leased=10 0 - 5 / up=1:15 0 - 5, offered 2 1 15 | s1 2 Lapsed
another reading | s1: leased=10 0 - 5 / up=1:15 0 - 6 | s1 1 BadEpoch
a drain that is forgotten | s1: drained 1 / up=1:- | s1 1 BadEpoch
a ping that is forgotten | s1: pinged 1 / up=1:- | s1 1 BadEpoch
an epoch after the end | s1: lost / up=1:- | s1 1 BadEpoch
a dispatch over the seal | c1: took 5 1; s1: offered 2 1 / up=1:- | s1 1 BadEpoch
a client's dispatch over the seal | c1: inited, took 5 1 / down=1:1 | c1 2 BadEpoch
the sequence begins anew | c1: took 5 1, nacked 5 1 / down=1:0 | c1 2 BadEpoch
the sequence goes on | c1: took 5 1, nacked 5 1 / down=1:1, took 5 2, nacked 5 2 / down=2:2 | ok
an epoch of the other side | c1: inited / up=1:- | c1 1 BadEpoch
a tag over two histories | c1: took 5 1 / took 5 2 | c1 1 TagOpen
reply and note | c1: took 5 1, noted 5 1, passed 5 1; s1: offered 2 1, settled 2 1 | ok
discarded, then another on its tag | c1: took 5 1, noted 5 1, discarded 5 1, took 5 2, late 5 1, passed 5 2; s1: offered 2 1, offered 3 2, settled 2 1, settled 3 2 | ok
a tag that is used again | c1: took 5 1, noted 5 1, discarded 5 1, late 5 1; c2: took 5 2.1; s1: offered 2 1, settled 2 1, offered 2 2.1 | ok
a loss of three | c1: took 5 1, took 6 2, took 7 3, noted 5 1, noted 6 2, noted 7 3, discarded 6 2, failed 5 1, late 6 2, failed 7 3; s1: offered 2 1, offered 3 2, offered 4 3, discarding 3 2, lost, lostone 2 1, lostone 3 2, lostone 4 3 | ok
nacked twice, passed on | c1: took 5 1, noted 5 1, retried 5 1, noted 5 1, passed 5 1; s1: offered 2 1, back 2 1; s2: offered 2 1, back 2 1 | ok
the same server and tag again | c1: took 5 1, noted 5 1, retried 5 1, noted 5 1, passed 5 1; s1: offered 2 1, back 2 1, offered 2 1, settled 2 1 | ok
a nack before its note | c1: took 5 1, passed 5 1, noted 5 1; s1: offered 2 1, back 2 1 | ok
a sending that is out beside one nacked | c1: took 5 1, noted 5 1, retried 5 1, noted 5 1; s1: offered 2 1, offered 3 1, back 3 1 | ok
counts begin again | c1: ponged 1, ponged 1 / fresh=1:0, ponged 1, ponged 1 | ok
a session that isn't fresh | c1: took 5 1, nacked 5 1 / fresh=1:1 | c1 2 BadEpoch
a lease over the seal | c1: took 5 1 11000; s1: leased=10000 0 - 1000 / up=1:11000 0 - 1000 | ok";
