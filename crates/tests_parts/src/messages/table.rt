//! Bodies in hex digits, with what `parse` finds in each of their variants; and whole frames.

use std::str::Lines;

/// The text stands in a function of its own, so that no test's proof carries it.
pub fn blocks() -> Lines<'static> {
    BLOCKS.lines()
}

/// Four lines for each body: the name, the type byte and the bytes of each field of its message, `#` in front of a number;
/// the body; what is found in its first 0, 1 and so on bytes, up to one byte more than it has; and what is found where one
/// of its bytes is higher by one. That is the place of a BadBody, `.` if the fields are there, or `-` if ROWS tells.
const BLOCKS: &str = "\
Treq 01 body=0..
6f7061717565
. . . . . . . .
. . . . . .
Rreq ff body=0..
6f7061717565
. . . . . . . .
. . . . . .
OtherT 03 body=0..
6f7061717565
. . . . . . . .
. . . . . .
OtherR fd body=0..

. .

OtherR 00 body=0..
78
. . .
.
OtherT 7e body=0..

. .

OtherR 81 body=0..
79
. . .
.
OtherR bd body=0..
7a
. . .
.
Tdispatch 02 contexts=0..16 dst=18..22 dtab=22..36 body=36..
000200016b000576616c75650000000000042f732f61000200022f6600022f7400000000626f6479
0 0 2 2 2 5 5 5 5 5 5 5 12 12 14 14 16 16 16 16 16 16 22 22 24 24 24 24 28 28 28 28 32 32 34 34 . . . . . .
26 26 2 6 . 5 17 . . . . . 12 17 14 17 16 25 . . . . 36 36 24 29 . . 28 35 . . 32 35 34 - . . . .
Rdispatch fe #status=0..1 contexts=1..17 body=17..
01000200016b000576616c756500000000626f6479
0 1 1 3 3 3 6 6 6 6 6 6 6 13 13 15 15 . . . . . .
. 17 17 3 7 . 6 16 . . . . . 13 16 15 - . . . .
Tdiscarded 42 #discard_tag=0..3 why=3..
000005776879
0 0 0 . . . . .
. . . . . .
Tdiscarded c2 #discard_tag=0..3 why=3..
800005
0 0 0 . .
. . .
Rdiscarded be body=0..

. 0

Tping 41 body=0..

. 0

Rping bf body=0..

. 0

Tdrain 40 body=0..

. 0

Rdrain c0 body=0..

. 0

Tlease 43 #unit=0..1 #howmuch=1..9
000000000000002710
0 1 1 1 1 1 1 1 1 . 9
. . . . . . . . .
Tinit 44 #version=0..2 headers=2..
0001000000036b65790000000576616c75650000000000000000
0 0 . 2 2 2 2 2 2 9 9 9 9 9 9 9 9 9 . 18 18 18 22 22 22 22 . 26
. . 2 2 2 10 . . . 9 9 9 23 . . . . . 18 18 18 23 22 22 22 22
Rinit bc #version=0..2 headers=2..
00070000000a6d75782d6672616d657200000002ffff
0 0 . 2 2 2 2 2 2 2 2 2 2 2 2 2 16 16 16 16 16 16 . 22
. . 2 2 2 17 . . . . . . . . . . 16 16 16 16 . .
Rerr 80 why=0..
7465787420ff
. . . . . . . .
. . . . . .
Rerr 7f why=0..
74657874
. . . . . .
. . . .
";

/// A frame in hex digits, with its kind, its tag, and what is found in it.
pub fn rows() -> Lines<'static> {
    ROWS.lines()
}

const ROWS: &str = "\
0000002c02000005000200016b000576616c75650000000000042f732f61000200022f6600022f7400000001626f6479 Tdispatch 5 contexts=000200016b000576616c756500000000 dst=2f732f61 dtab=000200022f6600022f740000000162 body=6f6479
00000019fe00000501000200016b000576616c756500000001626f6479 Rdispatch 5 status=1 contexts=000200016b000576616c75650000000162 body=6f6479
0000000441800001 Tping 8388609 Fragment
00000009020000050001000561 Tdispatch 5 BadBody 2
000000054100000100 Tping 1 BadBody 0
0000000a02000005000000042f73 Tdispatch 5 BadBody 2
0000000c020000050000000000010000 Tdispatch 5 BadBody 8
000000054400000100 Tinit 1 BadBody 0
0000000a44000001000100000005 Tinit 1 BadBody 2
00000006420000000000 Tdiscarded 0 BadBody 0
00000004fe000002 Rdispatch 2 BadBody 0
0000000c430000000000000000000027 Tlease 0 BadBody 1
0000000e4300000000000000000000271000 Tlease 0 BadBody 9
";
