// Plays the edges of the job file: files for the reader, and jobs for the writer, whose files are compared byte by byte and
// read again. The tables state what each case expects, worked out from document 01, "Job file", "Turned down" and "Played
// cases", and from document 02, A3 to A5; `play` says what stands in a row and `build` what its words stand for. A line of the
// output ends with `ok` where the numbers answered and the bytes left are the row's, and the last line counts the cases.
#![tactic(auto)]

mod build;
mod list;
mod play;
mod score;
mod text;

use score::Score;
use text::Fault;

// Two bytes for the mark (2), the mark (3), the whole record (2); and the file ends with its close (2).
fn file_cuts(score: &mut Score) -> Result<(), Fault> {
    score.files(
        "
no byte                         |                        | 2
one byte                        | 44                     | 2
one byte of no mark             | 00                     | 2
a mark alone                    | 44 4B                  | 2
a wrong mark alone              | 44 4C                  | 3
a close first                   | 43 4C BD B3            | 3
header of five bytes            | 44 4B 02 00 02         | 2
header alone                    | J                      | 2
one byte left                   | J 43                   | 2
one byte left, of no mark       | J 00                   | 2
two bytes left, of no mark      | J 00 00                | 3
mark of a request alone         | J 52 51                | 2
request of seven bytes, all bad | J 52 51 02 03 02 00 02 | 2
mark of a run alone             | J 47 52                | 2
run of three bytes, bad head    | J 47 52 02             | 2
run and no close                | J 47 52 00 01          | 2
mark of a close alone           | J 43 4C                | 2
close of three bytes            | J 43 4C 00             | 2
",
    )
}

// What may follow what (3), bytes after the close (12), the balance (13).
fn file_marks(score: &mut Score) -> Result<(), Fault> {
    score.files(
        "
a second header               | J 44 4B 02 00 02 00 =                     | 3
a request behind a run        | J 47 52 00 01 Q =                         | 3
a wrong mark behind a request | J Q 52 52 00 01 =                         | 3
a wrong mark behind a run     | J 47 52 00 01 47 53 00 01 =               | 3
smallest file                 | 44 4B 01 00 01 00 43 4C 77 68             | 0 1 1 0 0 0
balance one too high          | 44 4B 01 00 01 00 43 4C 78 68             | 13
balance high byte first       | 44 4B 01 00 01 00 43 4C 68 77             | 13
balance of zero               | 44 4B 31 06 01 00 47 52 00 10 43 4C 00 00 | 0 1585 1 0 16 1
one byte after the close      | 44 4B 01 00 01 00 43 4C 77 68 00          | 12
two bytes after the close     | 44 4B 01 00 01 00 43 4C 77 68 00 00       | 12
a second close                | 44 4B 01 00 01 00 43 4C 77 68 43 4C BD B3 | 12
byte after it, wrong balance  | 44 4B 01 00 01 00 43 4C 78 68 00          | 12
",
    )
}

// Places (4), then heads (5), before anything behind them.
fn file_sizes(score: &mut Score) -> Result<(), Fault> {
    score.files(
        "
4,096 places             | 44 4B 00 10 01 00 43 4C 78 58             | 0 4096 1 0 0 0
4,097 places             | 44 4B 01 10 01 00 43 4C 77 58             | 4
no place                 | 44 4B 00 00 01 00 43 4C 78 68             | 4
65,535 places            | 44 4B FF FF 01 00 43 4C 79 68             | 4
16 heads                 | 44 4B 01 00 10 00 43 4C 68 68             | 0 1 16 0 0 0
17 heads                 | 44 4B 01 00 11 00 43 4C 67 68             | 0 1 17 0 0 0
32 heads                 | 44 4B 02 00 20 00 43 4C 57 68             | 0 2 32 0 0 0
33 heads                 | 44 4B 02 00 21 00 43 4C 56 68             | 5
no head                  | 44 4B 01 00 00 00 43 4C 78 68             | 5
256 heads                | 44 4B 01 00 00 01 43 4C 78 67             | 5
288 heads                | 44 4B 01 00 20 01 43 4C 58 67             | 5
places and heads bad     | 44 4B 00 00 00 00 43 4C 79 68             | 4
no place, 33 heads       | 44 4B 00 00 21 00 43 4C 00 00             | 4
places bad, wrong mark   | 44 4B 00 00 01 00 00 00                   | 4
heads bad, request bad   | 44 4B 01 00 21 00 52 51 21 03 01 00 01 00 | 5
33 heads, wrong balance  | 44 4B 02 00 21 00 43 4C 00 00             | 5
33 heads, nothing left   | 44 4B 02 00 21 00                         | 5
heads bad, one byte left | 44 4B 01 00 00 00 43                      | 5
",
    )
}

// The last of 17 and of 32 heads (02, A4), and the head behind the last, in a request (6) and in a run (10).
fn file_heads(score: &mut Score) -> Result<(), Fault> {
    score.files(
        "
head 16 of 17          | 44 4B 02 00 11 00 52 51 10 02 00 00 01 00 47 52 10 03 43 4C AC BF             | 0 2 17 1 3 1
head 31 of 32          | 44 4B 02 00 20 00 52 51 1F 01 00 00 01 00 47 52 1F 0D 47 52 1E 01 43 4C 1A 63 | 0 2 32 1 14 2
head 31 of 31          | 44 4B 02 00 1F 00 52 51 1F 01 00 00 01 00 =                                   | 6
head 32 of 32          | 44 4B 02 00 20 00 52 51 20 01 00 00 01 00 =                                   | 6
grant of head 31 of 31 | 44 4B 02 00 1F 00 47 52 1F 01 =                                               | 10
grant of head 32 of 32 | 44 4B 02 00 20 00 47 52 20 01 =                                               | 10
both of head 31 of 31  | 44 4B 02 00 1F 00 52 51 1F 01 00 00 01 00 47 52 1F 01 =                       | 6
",
    )
}

// Head (6), kind (7), place x and place y (8), left to right, in a job of two places and two heads.
fn file_fields(score: &mut Score) -> Result<(), Fault> {
    score.files(
        "
last head and places | J 52 51 01 02 01 00 01 00 = | 0 2 2 1 0 0
head 2               | J 52 51 02 01 00 00 01 00 = | 6
head 255             | J 52 51 FF 01 00 00 01 00 = | 6
kind 0               | J 52 51 00 00 00 00 01 00 = | 7
kind 3               | J 52 51 00 03 00 00 01 00 = | 7
kind 255             | J 52 51 00 FF 00 00 01 00 = | 7
x 2                  | J 52 51 00 01 02 00 01 00 = | 8
x 256                | J 52 51 00 01 00 01 01 00 = | 8
y 2                  | J 52 51 00 01 00 00 02 00 = | 8
y 256                | J 52 51 00 01 00 00 00 01 = | 8
all four bad         | J 52 51 02 03 02 00 02 00 = | 6
kind, x and y bad    | J 52 51 00 03 02 00 02 00 = | 7
x and y bad          | J 52 51 00 01 02 00 02 00 = | 8
",
    )
}

// The first faulty record decides, whatever stands behind it.
fn file_first_faults(score: &mut Score) -> Result<(), Fault> {
    score.files(
        "
y bad, next head bad        | J 52 51 00 01 00 00 02 00 52 51 02 01 00 00 01 00 = | 8
second request bad          | J Q 52 51 00 03 00 00 01 00 =                       | 7
head bad, then a wrong mark | J 52 51 02 01 00 00 01 00 00 00                     | 6
kind bad, then nothing      | J 52 51 00 03 00 00 01 00                           | 7
x bad, then one byte        | J 52 51 00 01 02 00 01 00 43                        | 8
y bad, wrong balance        | J 52 51 00 01 00 00 02 00 43 4C 00 00               | 8
wrong mark, then head bad   | J 00 00 00 00 52 51 02 01 00 00 01 00               | 3
request bad, run bad        | J 52 51 00 01 00 00 02 00 47 52 02 00 =             | 8
run bad, then a request     | J 47 52 02 01 Q =                                   | 10
",
    )
}

// The file that document 01 prints.
fn file_sample(score: &mut Score) -> Result<(), Fault> {
    score.files(
        "
document 01 | 44 4B 04 00 02 00 52 51 00 01 02 00 03 00 52 51 01 02 00 00 01 00 47 52 01 02 47 52 00 06 47 52 01 01 43 4C F1 C2 | 0 4 2 2 9 3
",
    )
}

// A head of the job and a run above 0 (10), then the run before (11), with two heads.
fn file_runs(score: &mut Score) -> Result<(), Fault> {
    score.files(
        "
255, same head        | J 47 52 00 FF 47 52 00 01 =             | 0 2 2 0 256 2
254, same head        | J 47 52 00 FE 47 52 00 01 =             | 11
1, same head          | J 47 52 01 01 47 52 01 FF =             | 11
255, 255, same head   | J 47 52 00 FF 47 52 00 FF 47 52 00 01 = | 0 2 2 0 511 3
255, 254, same head   | J 47 52 00 FF 47 52 00 FE 47 52 00 01 = | 11
254, another, 254     | J 47 52 00 FE 47 52 01 01 47 52 00 FE = | 0 2 2 0 509 3
head 2                | J 47 52 02 01 =                         | 10
head 255              | J 47 52 FF 01 =                         | 10
run 0                 | J 47 52 00 00 =                         | 10
run 0, head bad       | J 47 52 02 00 =                         | 10
254, same head, run 0 | J 47 52 00 FE 47 52 00 00 =             | 10
254, then head 2      | J 47 52 00 FE 47 52 02 01 =             | 10
11, then a wrong mark | J 47 52 00 FE 47 52 00 01 00 00         | 11
11, wrong balance     | J 47 52 00 FE 47 52 00 01 43 4C 00 00   | 11
",
    )
}

// The whole record (2), then a request's count (9), then its fields.
fn file_requests(score: &mut Score) -> Result<(), Fault> {
    score.files(
        "
512 requests                   | J Q*512 =                                                 | 0 2 2 512 0 0
512 requests and a run         | J Q*512 47 52 01 01 =                                     | 0 2 2 512 1 1
513 requests                   | J Q*513 =                                                 | 9
513th all bad                  | J Q*512 52 51 02 03 02 00 02 00 =                         | 9
513th all bad, then nothing    | J Q*512 52 51 02 03 02 00 02 00                           | 9
513th of seven bytes           | J Q*512 52 51 02 03 02 00 02                              | 2
513th of its mark              | J Q*512 52 51                                             | 2
513th of one byte              | J Q*512 52                                                | 2
513th of a wrong mark          | J Q*512 52 52                                             | 3
512th with head 2, and a 513th | J Q*511 52 51 02 01 00 00 01 00 52 51 00 01 00 00 01 00 = | 6
",
    )
}

// Length first (1): 32,768 bytes are admitted, though a whole file without pairs has at most 32,766.
fn file_lengths(score: &mut Score) -> Result<(), Fault> {
    score.files(
        "
32,766 bytes, 8,189 runs            | J R*8189 =                 | 0 2 2 0 2088195 8189
32,766 bytes, 512 requests          | J Q*512 R*7165 =           | 0 2 2 512 1827075 7165
32,766 bytes, wrong balance         | J R*8189 43 4C 00 00       | 13
32,767 bytes, one after the close   | J R*8189 = 00              | 12
32,768 bytes, two after the close   | J R*8189 = 00 00           | 12
32,767 bytes, one byte left         | J R*8190 43                | 2
32,768 bytes, a mark left           | J R*8190 43 4C             | 2
32,768 bytes, a wrong mark left     | J R*8190 43 4D             | 3
32,768 bytes, run 0 last            | J R*8189 47 52 00 00 43 4C | 10
32,768 bytes, 513th request         | J Q*513 R*7164 43 4C       | 9
32,769 bytes, three after the close | J R*8189 = 00 00 00        | 1
32,770 bytes, 8,190 runs            | J R*8190 =                 | 1
32,768 zeros                        | 00*32768                   | 3
32,769 zeros                        | 00*32769                   | 1
",
    )
}

// A file with a pair (02, A3), byte by byte.
fn file_pair_sample(score: &mut Score) -> Result<(), Fault> {
    score.files(
        "
two heads, request 1 waits | 44 4B 02 00 02 00 52 51 00 01 00 00 01 00 52 51 01 02 00 00 01 00 41 46 01 00 00 00 47 52 01 03 47 52 00 0D 47 52 01 06 43 4C B5 6F | 0 2 2 2 22 3 1
",
    )
}

// The record of a pair (02, A3): two bytes for the mark (2), the mark (3), the whole record (2), and then the pair (18).
fn file_pair_cuts(score: &mut Score) -> Result<(), Fault> {
    score.files(
        "
one byte of a pair's mark     | J Q*2 41                  | 2
mark of a pair alone          | J Q*2 41 46               | 2
pair of three bytes           | J Q*2 41 46 01            | 2
pair of five bytes            | J Q*2 41 46 01 00 00      | 2
pair of five bytes, bad       | J Q*2 41 46 02 00 02      | 2
five bytes, no request        | J 41 46 00 00 00          | 2
second pair of five bytes     | J Q*2 W 41 46 01 00 00    | 2
pair and no close             | J Q*2 W                   | 2
pair and one byte             | J Q*2 W 43                | 2
mark 41 47                    | J Q*2 41 47 01 00 00 00 = | 3
mark high byte first          | J Q*2 46 41 01 00 00 00 = | 3
a pair's balance              | J Q*2 W 43 4C 8D 7D       | 0 2 2 2 0 0 1
a pair's balance, one too low | J Q*2 W 43 4C 8C 7D       | 13
",
    )
}

// Pairs stand between requests and runs (3).
fn file_pair_places(score: &mut Score) -> Result<(), Fault> {
    score.files(
        "
a pair first                   | W J Q*2 =                               | 3
a request behind a pair        | J Q*2 W Q =                             | 3
a request's mark behind a pair | J Q*2 W 52 51                           | 3
a 513th request behind a pair  | J Q*512 W Q =                           | 3
a header behind a pair         | J Q*2 W J =                             | 3
a wrong mark behind a pair     | J Q*2 W 41 47                           | 3
a pair behind a run            | J Q*2 47 52 00 01 W =                   | 3
a pair's mark behind a run     | J Q*2 47 52 00 01 41 46                 | 3
a bad pair behind a run        | J Q*2 47 52 00 01 41 46 01 00 01 00     | 3
a second pair behind a run     | J Q*3 W 47 52 00 01 41 46 02 00 00 00 = | 3
a pair behind the close        | J Q*2 = W                               | 12
pair, run                      | J Q*2 W 47 52 00 03 =                   | 0 2 2 2 3 1 1
three pairs, two runs          | J Q*3 P*3 S =                           | 0 2 2 3 2 2 3
512 requests, pair, run        | J Q*512 W R =                           | 0 2 2 512 255 1 1
",
    )
}

// Both requests of a pair exist, and the earlier is below the later (18); the high bytes count.
fn file_pair_fields(score: &mut Score) -> Result<(), Fault> {
    score.files(
        "
pair 0 0 of no request | J 41 46 00 00 00 00 =       | 18
pair 1 0 of no request | J W =                       | 18
pair 0 0 of one        | J Q 41 46 00 00 00 00 =     | 18
pair 1 0 of one        | J Q W =                     | 18
pair 1 0 of two        | J Q*2 W =                   | 0 2 2 2 0 0 1
pair 0 1 of two        | J Q*2 41 46 00 00 01 00 =   | 18
pair 1 1 of two        | J Q*2 41 46 01 00 01 00 =   | 18
pair 2 0 of two        | J Q*2 41 46 02 00 00 00 =   | 18
pair 1 2 of two        | J Q*2 41 46 01 00 02 00 =   | 18
later 257 of two       | J Q*2 41 46 01 01 00 00 =   | 18
earlier 256 of two     | J Q*2 41 46 01 00 00 01 =   | 18
later 65,535 of two    | J Q*2 41 46 FF FF 00 00 =   | 18
earlier 65,535 of two  | J Q*2 41 46 01 00 FF FF =   | 18
pair 256 255 of 512    | J Q*512 41 46 00 01 FF 00 = | 0 2 2 512 0 0 1
pair 255 256 of 512    | J Q*512 41 46 FF 00 00 01 = | 18
pair 511 0 of 512      | J Q*512 41 46 FF 01 00 00 = | 0 2 2 512 0 0 1
pair 511 510 of 512    | J Q*512 41 46 FF 01 FE 01 = | 0 2 2 512 0 0 1
pair 511 511 of 512    | J Q*512 41 46 FF 01 FF 01 = | 18
pair 512 0 of 512      | J Q*512 41 46 00 02 00 00 = | 18
",
    )
}

// Pairs rise strictly, by the later request and then by the earlier one (18).
fn file_pair_order(score: &mut Score) -> Result<(), Fault> {
    score.files(
        "
pairs 1 0, 1 0           | J Q*2 W*2 =                                   | 18
pairs 2 1, 2 0           | J Q*3 41 46 02 00 01 00 41 46 02 00 00 00 =   | 18
pairs 2 0, 1 0           | J Q*3 41 46 02 00 00 00 W =                   | 18
pairs 3 0, 2 1           | J Q*4 41 46 03 00 00 00 41 46 02 00 01 00 =   | 18
pairs 1 0, 2 0, 1 0      | J Q*3 W 41 46 02 00 00 00 W =                 | 18
pairs 2 0, 2 1           | J Q*3 41 46 02 00 00 00 41 46 02 00 01 00 =   | 0 2 2 3 0 0 2
pairs 2 1, 3 0           | J Q*4 41 46 02 00 01 00 41 46 03 00 00 00 =   | 0 2 2 4 0 0 2
pairs 1 0, 3 2           | J Q*4 W 41 46 03 00 02 00 =                   | 0 2 2 4 0 0 2
pairs 255 0, 256 0       | J Q*512 41 46 FF 00 00 00 41 46 00 01 00 00 = | 0 2 2 512 0 0 2
pairs 256 0, 255 0       | J Q*512 41 46 00 01 00 00 41 46 FF 00 00 00 = | 18
pairs 511 255, 511 256   | J Q*512 41 46 FF 01 FF 00 41 46 FF 01 00 01 = | 0 2 2 512 0 0 2
pairs 511 256, 511 255   | J Q*512 41 46 FF 01 00 01 41 46 FF 01 FF 00 = | 18
99 requests, 4,777 pairs | J Q*99 P*4777 =                               | 0 2 2 99 0 0 4777
98 requests, 4,777 pairs | J Q*98 P*4777 =                               | 18
",
    )
}

// The first faulty record decides, with pairs too: 18 behind every request and before every run.
fn file_pair_faults(score: &mut Score) -> Result<(), Fault> {
    score.files(
        "
18, then nothing            | J Q*2 41 46 01 00 01 00                         | 18
18, then one byte           | J Q*2 41 46 01 00 01 00 43                      | 18
18, then a wrong mark       | J Q*2 41 46 01 00 01 00 00 00                   | 18
18, then a request          | J Q*2 41 46 01 00 01 00 Q =                     | 18
18, then a pair cut         | J Q*2 41 46 01 00 01 00 41 46                   | 18
18, run bad                 | J Q*2 41 46 01 00 01 00 47 52 02 01 =           | 18
18, wrong balance           | J Q*2 41 46 01 00 01 00 43 4C 00 00             | 18
18, byte after the close    | J Q*2 41 46 01 00 01 00 = 00                    | 18
request bad, pair bad       | J Q 52 51 00 01 00 00 02 00 41 46 01 00 01 00 = | 8
513 requests, pair bad      | J Q*513 41 46 01 00 01 00 =                     | 9
wrong mark, then a bad pair | J Q*2 00 00 00 00 41 46 01 00 01 00             | 3
pair, run bad               | J Q*2 W 47 52 02 01 =                           | 10
pair, 254, same head        | J Q*2 W 47 52 00 FE 47 52 00 01 =               | 11
pair, byte after the close  | J Q*2 W = 00                                    | 12
pair, wrong balance         | J Q*2 W 43 4C 00 00                             | 13
",
    )
}

// A file has 10 bytes, 8 a request, 6 a pair and 4 a run: with pairs it can have all 32,768, and no file has more pairs than
// the 5,321 beside 104 requests.
fn file_pair_lengths(score: &mut Score) -> Result<(), Fault> {
    score.files(
        "
32,768 bytes, a pair, 8,184 runs        | J Q*2 W R*8184 =                   | 0 2 2 2 2086920 8184 1
32,768 bytes, its balance               | J Q*2 W R*8184 43 4C C5 27         | 0 2 2 2 2086920 8184 1
32,768 bytes, wrong balance             | J Q*2 W R*8184 43 4C 00 00         | 13
32,769 bytes, one after the close       | J Q*2 W R*8184 = 00                | 1
32,772 bytes, a pair, 8,185 runs        | J Q*2 W R*8185 =                   | 1
32,768 bytes, 512 requests, 4,777 pairs | J Q*512 P*4777 =                   | 0 2 2 512 0 0 4777
32,768 bytes, the last one by hand      | J Q*512 P*4776 41 46 62 00 17 00 = | 0 2 2 512 0 0 4777
32,768 bytes, last pair twice           | J Q*512 P*4776 41 46 62 00 16 00 = | 18
32,768 bytes, 104 requests, 5,321 pairs | J Q*104 P*5321 =                   | 0 2 2 104 0 0 5321
32,774 bytes, 512 requests, 4,778 pairs | J Q*512 P*4778 =                   | 1
32,774 bytes, 104 requests, 5,322 pairs | J Q*104 P*5322 =                   | 1
",
    )
}

// Rights behind the first record (02, A5), one a head, read in the order of the heads; requests, pairs and runs stand behind them.
fn file_right_samples(score: &mut Score) -> Result<(), Fault> {
    score.files(
        "
join alone, enquire alone | 44 4B 04 00 02 00 52 54 00 01 01 00 00 00 52 54 01 02 03 00 00 00 52 51 00 01 02 00 03 00 52 51 01 02 00 00 01 00 47 52 01 02 47 52 00 0D 47 52 01 01 43 4C 48 10                   | 0 4 2 2 16 3 0 2
no sight, sight of itself | 44 4B 04 00 02 00 52 54 00 03 00 00 00 00 52 54 01 03 02 00 00 00 52 51 00 01 02 00 03 00 52 51 01 02 00 00 01 00 47 52 01 02 47 52 00 0D 47 52 01 01 43 4C 4A 0D                   | 0 4 2 2 16 3 0 2
with a pair               | 44 4B 04 00 02 00 52 54 00 03 03 00 00 00 52 54 01 03 02 00 00 00 52 51 00 01 00 00 01 00 52 51 01 02 00 00 01 00 41 46 01 00 00 00 47 52 01 03 47 52 00 0D 47 52 01 06 43 4C 09 C1 | 0 4 2 2 22 3 1 2
one head                  | 44 4B 02 00 01 00 52 54 00 03 01 00 00 00 =                                                                                                                                         | 0 2 1 0 0 0 0 1
two heads, nothing else   | J V*2 =                                                                                                                                                                             | 0 2 2 0 0 0 0 2
32 heads, nothing else    | 44 4B 02 00 20 00 V*32 =                                                                                                                                                            | 0 2 32 0 0 0 0 32
32 heads, head 31 alone   | 44 4B 02 00 20 00 V*32 52 51 1F 01 00 00 01 00 47 52 1F 0D =                                                                                                                        | 0 2 32 1 13 1 0 32
",
    )
}

// Once begun there is one a head: two bytes for the mark (2), the mark (3), the whole record (2); one more is no mark that may stand
// there (3), whole or not.
fn file_right_places(score: &mut Score) -> Result<(), Fault> {
    score.files(
        "
one of two, then a request | J V Q =                         | 3
one of two, then a pair    | J V W =                         | 3
one of two, then a run     | J V 47 52 00 01 =               | 3
one of two, then the close | J V 43 4C 00 00                 | 3
one of two, then no mark   | J V 00 00                       | 3
one of two, then nothing   | J V                             | 2
one of two, then one byte  | J V 52                          | 2
one of two, then its mark  | J V 52 54                       | 2
31 of 32, then the close   | 44 4B 02 00 20 00 V*31 =        | 3
three of two               | J V*3 =                         | 3
three of two, the last cut | J V*2 52 54                     | 3
three of two, the last bad | J V*2 52 54 02 04 FF 00 00 00 = | 3
33 of 32                   | 44 4B 02 00 20 00 V*33 =        | 3
two of one                 | 44 4B 02 00 01 00 V*2 =         | 3
behind a request           | J Q V*2 =                       | 3
behind a pair              | J Q*2 W V*2 =                   | 3
behind a run               | J 47 52 00 01 V*2 =             | 3
again behind a request     | J V*2 Q V*2 =                   | 3
mark of a right alone      | J 52 54                         | 2
first cut to seven bytes   | J 52 54 00 03 03 00 00          | 2
first cut, all bad         | J 52 54 01 04 FF 00 00          | 2
second cut to seven bytes  | J V 52 54 01 03 03 00 00        | 2
",
    )
}

// The heads count up from 0, rights are 1 to 3, a mask has no bit for no head (19), record by record.
fn file_right_fields(score: &mut Score) -> Result<(), Fault> {
    score.files(
        "
first of head 1      | J 52 54 01 03 03 00 00 00                 | 19
head 0 twice         | J V 52 54 00 03 03 00 00 00               | 19
second of head 2     | J V 52 54 02 03 03 00 00 00               | 19
rights 0             | J 52 54 00 00 03 00 00 00                 | 19
rights 4             | J 52 54 00 04 03 00 00 00                 | 19
rights 255           | J 52 54 00 FF 03 00 00 00                 | 19
bit 2 of two heads   | J 52 54 00 03 04 00 00 00                 | 19
bits 0 to 2          | J 52 54 00 03 07 00 00 00                 | 19
bit 8                | J 52 54 00 03 00 01 00 00                 | 19
bit 16               | J 52 54 00 03 00 00 01 00                 | 19
bit 31               | J 52 54 00 03 00 00 00 80                 | 19
bit 31 of 31 heads   | 44 4B 02 00 1F 00 52 54 00 03 00 00 00 80 | 19
bit 1 of one head    | 44 4B 02 00 01 00 52 54 00 03 02 00 00 00 | 19
second right bad     | J V 52 54 01 00 03 00 00 00               | 19
19, then no mark     | J 52 54 01 03 03 00 00 00 00 00           | 19
19, then a request   | J 52 54 00 04 03 00 00 00 Q =             | 19
heads bad, right bad | 44 4B 02 00 21 00 52 54 01 00 00 00 00 00 | 5
",
    )
}

// A kind that is not among its head's rights (20), behind head, kind and places, record by record.
fn file_right_kinds(score: &mut Score) -> Result<(), Fault> {
    score.files(
        "
union, enquire alone       | J 52 54 00 02 03 00 00 00 52 54 01 03 03 00 00 00 Q =                             | 20
same-set, join alone       | J 52 54 00 01 03 00 00 00 52 54 01 03 03 00 00 00 52 51 00 02 00 00 01 00 =       | 20
union, join alone          | J 52 54 00 01 03 00 00 00 52 54 01 02 03 00 00 00 Q =                             | 0 2 2 1 0 0 0 2
same-set, enquire alone    | J 52 54 00 01 03 00 00 00 52 54 01 02 03 00 00 00 52 51 01 02 00 00 01 00 =       | 0 2 2 1 0 0 0 2
union of the other head    | J 52 54 00 01 03 00 00 00 52 54 01 02 03 00 00 00 52 51 01 01 00 00 01 00 =       | 20
place bad, and not allowed | J 52 54 00 02 03 00 00 00 52 54 01 03 03 00 00 00 52 51 00 01 02 00 01 00 =       | 8
kind bad, and not allowed  | J 52 54 00 02 03 00 00 00 52 54 01 03 03 00 00 00 52 51 00 03 00 00 01 00 =       | 7
head bad                   | J 52 54 00 02 03 00 00 00 52 54 01 03 03 00 00 00 52 51 02 01 00 00 01 00 =       | 6
second request not allowed | J 52 54 00 01 03 00 00 00 52 54 01 03 03 00 00 00 Q 52 51 00 02 00 00 01 00 =     | 20
20, then place bad         | J 52 54 00 02 03 00 00 00 52 54 01 03 03 00 00 00 Q 52 51 00 01 02 00 01 00 =     | 20
20, pair bad               | J 52 54 00 02 03 00 00 00 52 54 01 03 03 00 00 00 Q*2 41 46 01 00 01 00 =         | 20
513 requests, not allowed  | J 52 54 00 01 03 00 00 00 52 54 01 03 03 00 00 00 Q*512 52 51 00 02 00 00 01 00 = | 9
grants are for every head  | J 52 54 00 02 00 00 00 00 52 54 01 02 00 00 00 00 47 52 00 01 =                   | 0 2 2 0 1 1 0 2
",
    )
}

// With rights a file has 26 bytes of two heads: 8,185 runs are 32,766 bytes, and one more is too long.
fn file_right_lengths(score: &mut Score) -> Result<(), Fault> {
    score.files(
        "
32,766 bytes, 8,185 runs | J V*2 R*8185 =    | 0 2 2 0 2087175 8185 0 2
32,770 bytes, 8,186 runs | J V*2 R*8186 =    | 1
wrong balance            | J V*2 43 4C 00 00 | 13
byte after the close     | J V*2 = 00        | 12
",
    )
}

// Jobs whose files are stored byte by byte.
fn job_samples(score: &mut Score) -> Result<(), Fault> {
    score.jobs(
        "
smallest job             | 1 1     |                 |                            | 0 10 | 0 1 1 0 0 0     | 44 4B 01 00 01 00 43 4C 77 68
largest sizes and fields | 4096 32 | 31 2 4095 4094  | 1F 1F 00                   | 0 26 | 0 4096 32 1 3 2 | 44 4B 00 10 20 00 52 51 1F 02 FF 0F FE 0F 47 52 1F 02 47 52 00 01 43 4C 3E 3D
document 01              | 4 2     | 0 1 2 3 1 2 0 1 | 01 01 00 00 00 00 00 00 01 | 0 38 | 0 4 2 2 9 3     | 44 4B 04 00 02 00 52 51 00 01 02 00 03 00 52 51 01 02 00 00 01 00 47 52 01 02 47 52 00 06 47 52 01 01 43 4C F1 C2
",
    )
}

// The longest runs, at most 255; a rest of fewer than four numbers is no request.
fn job_runs(score: &mut Score) -> Result<(), Fault> {
    score.jobs(
        "
rest of three numbers | 2 2 | 9 9 9 |          | 0 10 | 0 2 2 0 0 0   | J =
254 grants            | 2 2 |       | 00*254   | 0 14 | 0 2 2 0 254 1 | J 47 52 00 FE =
255 grants            | 2 2 |       | 00*255   | 0 14 | 0 2 2 0 255 1 | J 47 52 00 FF =
256 grants            | 2 2 |       | 00*256   | 0 18 | 0 2 2 0 256 2 | J 47 52 00 FF 47 52 00 01 43 4C E7 C3
510 grants            | 2 2 |       | 01*510   | 0 18 | 0 2 2 0 510 2 | J 47 52 01 FF 47 52 01 FF =
511 grants            | 2 2 |       | 01*511   | 0 22 | 0 2 2 0 511 3 | J 47 52 01 FF 47 52 01 FF 47 52 01 01 =
heads in turn         | 2 2 |       | 00 01 00 | 0 22 | 0 2 2 0 3 3   | J S 47 52 00 01 =
",
    )
}

// Places (4), then heads (5); a number too wide for its field is refused, not cut.
fn job_sizes(score: &mut Score) -> Result<(), Fault> {
    score.jobs(
        "
4,097 places           | 4097 1  |          |  | 4
no place               | 0 1     |          |  | 4
65,537 places          | 65537 1 |          |  | 4
33 heads               | 1 33    |          |  | 5
no head                | 1 0     |          |  | 5
65,537 heads           | 1 65537 |          |  | 5
places and heads bad   | 0 0     |          |  | 4
no place, 33 heads     | 0 33    |          |  | 4
heads bad, request bad | 2 33    | 33 3 2 2 |  | 5
",
    )
}

// The last of 16, 17 and 32 heads (02, A4), and the head behind the last, in a request (6) and in a grant (10).
fn job_heads(score: &mut Score) -> Result<(), Fault> {
    score.jobs(
        "
16 heads, largest fields | 4096 16 | 15 2 4095 4094 | 0F 0F 00 | 0 26 | 0 4096 16 1 3 2 | 44 4B 00 10 10 00 52 51 0F 02 FF 0F FE 0F 47 52 0F 02 47 52 00 01 43 4C 6E 3D
17 heads, last one       | 2 17    | 16 2 0 1       | 10*3     | 0 22 | 0 2 17 1 3 1    | 44 4B 02 00 11 00 52 51 10 02 00 00 01 00 47 52 10 03 43 4C AC BF
32 heads, last two       | 2 32    | 31 1 0 1       | 1F*13 1E | 0 26 | 0 2 32 1 14 2   | 44 4B 02 00 20 00 52 51 1F 01 00 00 01 00 47 52 1F 0D 47 52 1E 01 43 4C 1A 63
32 heads, no request     | 2 32    |                |          | 0 10 | 0 2 32 0 0 0    | 44 4B 02 00 20 00 43 4C 57 68
head 31 of 31            | 2 31    | 31 1 0 1       |          | 6
head 32 of 32            | 2 32    | 32 1 0 1       |          | 6
grant of head 31 of 31   | 2 31    |                | 1F       | 10
grant of head 32 of 32   | 2 32    |                | 20       | 10
both of head 31 of 31    | 2 31    | 31 1 0 1       | 1F       | 6
33 heads, both bad       | 2 33    | 33 3 2 2       | 21       | 5
",
    )
}

// Head (6), kind (7), place x and place y (8), request by request, then each grant (10).
fn job_fields(score: &mut Score) -> Result<(), Fault> {
    score.jobs(
        "
head 2                 | 2 2 | 2 1 0 1         |          | 6
head 256               | 2 2 | 256 1 0 1       |          | 6
kind 0                 | 2 2 | 0 0 0 1         |          | 7
kind 3                 | 2 2 | 0 3 0 1         |          | 7
kind 257               | 2 2 | 0 257 0 1       |          | 7
x 2                    | 2 2 | 0 1 2 1         |          | 8
x 65,536               | 2 2 | 0 1 65536 1     |          | 8
y 2                    | 2 2 | 0 1 0 2         |          | 8
y 65,536               | 2 2 | 0 1 0 65536     |          | 8
all four bad           | 2 2 | 2 3 2 2         |          | 6
kind, x and y bad      | 2 2 | 0 3 2 2         |          | 7
y bad, next head bad   | 2 2 | 0 1 0 2 2 1 0 1 |          | 8
second request bad     | 2 2 | 0 1 0 1 0 3 0 1 |          | 7
grant of head 2        | 2 2 |                 | 02       | 10
last grant of head 255 | 2 2 |                 | 00 01 FF | 10
request bad, grant bad | 2 2 | 0 1 0 2         | 02       | 8
",
    )
}

// The count of requests (9), behind places and heads and before any field.
fn job_requests(score: &mut Score) -> Result<(), Fault> {
    score.jobs(
        "
512 requests                   | 2 2  | Q*512         |    | 0 4106 | 0 2 2 512 0 0 | J Q*512 =
512 requests and three numbers | 2 2  | Q*512 0 1 0   |    | 0 4106 | 0 2 2 512 0 0 | J Q*512 =
513 requests                   | 2 2  | Q*513         |    | 9
513 requests, heads bad        | 2 33 | Q*513         |    | 5
513 requests, grant bad        | 2 2  | Q*513         | 02 | 9
513 requests, first bad        | 2 2  | 2 1 0 1 Q*512 |    | 9
512 requests, last bad         | 2 2  | Q*511 0 1 0 2 |    | 8
",
    )
}

// The file's length (1), behind requests and grants and before the buffer.
fn job_lengths(score: &mut Score) -> Result<(), Fault> {
    score.jobs(
        "
32,766 bytes, 8,189 runs       | 2 2   |         | T*4094 00    | 0 32766 | 0 2 2 0 8189 8189    | J S*4094 47 52 00 01 =
32,766 bytes, 512 requests     | 2 2   | Q*512   | T*3582 00    | 0 32766 | 0 2 2 512 7165 7165  | J Q*512 S*3582 47 52 00 01 =
32,766 bytes, 2,088,195 grants | 2 2   |         | 00*2088195   | 0 32766 | 0 2 2 0 2088195 8189 | J R*8189 =
32,770 bytes, 2,088,196 grants | 2 2   |         | 00*2088196   | 1
32,770 bytes, 8,190 runs       | 2 2   |         | T*4095       | 1
32,770 bytes, 512 requests     | 2 2   | Q*512   | T*3583       | 1
32,770 bytes, request bad      | 2 2   | 0 1 2 1 | T*4095       | 8
32,770 bytes, empty buffer     | 2 2 0 |         | T*4095       | 1
32,770 bytes, last grant bad   | 2 2   |         | T*4094 00 02 | 10
",
    )
}

// The buffer (14), last of all.
fn job_buffers(score: &mut Score) -> Result<(), Fault> {
    score.jobs(
        "
buffer of 10 bytes      | 1 1 10    |  |           | 0 10    | 0 1 1 0 0 0       | 44 4B 01 00 01 00 =
buffer of 9 bytes       | 1 1 9     |  |           | 14
empty buffer            | 1 1 0     |  |           | 14
empty buffer, grant bad | 1 1 0     |  | 01        | 10
buffer of 32,766 bytes  | 2 2 32766 |  | T*4094 00 | 0 32766 | 0 2 2 0 8189 8189 | J S*4094 47 52 00 01 =
buffer of 32,765 bytes  | 2 2 32765 |  | T*4094 00 | 14
",
    )
}

// Pairs behind the requests (02, A3); a rest of one number is no pair.
fn job_pairs(score: &mut Score) -> Result<(), Fault> {
    score.jobs(
        "
pair 1 0               | 4 2 | Q*2 / 1 0               |                 | 0 32   | 0 4 2 2 0 0 1   | 44 4B 04 00 02 00 Q*2 41 46 01 00 00 00 43 4C 8B 7D
no pair                | 4 2 | Q*2 /                   |                 | 0 26   | 0 4 2 2 0 0 0   | 44 4B 04 00 02 00 Q*2 43 4C CD C3
rest of one number     | 4 2 | Q*2 / 1                 |                 | 0 26   | 0 4 2 2 0 0 0   | 44 4B 04 00 02 00 Q*2 43 4C CD C3
pair and rest of one   | 2 2 | Q*2 / 1 0 9             |                 | 0 32   | 0 2 2 2 0 0 1   | J Q*2 W 43 4C 8D 7D
rest, no request       | 2 2 | / 1                     |                 | 0 10   | 0 2 2 0 0 0 0   | J =
requests with a rest   | 2 2 | Q*2 9 9 9 / 1 0         |                 | 0 32   | 0 2 2 2 0 0 1   | J Q*2 W =
pairs 1 0, 2 0, 2 1    | 2 2 | Q*3 / 1 0 2 0 2 1       |                 | 0 52   | 0 2 2 3 0 0 3   | J Q*3 W 41 46 02 00 00 00 41 46 02 00 01 00 =
pairs 2 1, 3 0         | 2 2 | Q*4 / 2 1 3 0           |                 | 0 54   | 0 2 2 4 0 0 2   | J Q*4 41 46 02 00 01 00 41 46 03 00 00 00 =
pairs 256 255, 511 510 | 2 2 | Q*512 / 256 255 511 510 |                 | 0 4118 | 0 2 2 512 0 0 2 | J Q*512 41 46 00 01 FF 00 41 46 FF 01 FE 01 =
pair and grants        | 2 2 | Q*2 / 1 0               | 00*256 01       | 0 44   | 0 2 2 2 257 3 1 | J Q*2 W 47 52 00 FF 47 52 00 01 47 52 01 01 =
two heads, 1 waits     | 2 2 | 0 1 0 1 1 2 0 1 / 1 0   | 01*3 00*13 01*6 | 0 44   | 0 2 2 2 22 3 1  | 44 4B 02 00 02 00 52 51 00 01 00 00 01 00 52 51 01 02 00 00 01 00 41 46 01 00 00 00 47 52 01 03 47 52 00 0D 47 52 01 06 43 4C B5 6F
",
    )
}

// Both requests exist, the earlier is below the later, the pairs rise strictly (18); a number too wide is refused, not cut.
fn job_pair_fields(score: &mut Score) -> Result<(), Fault> {
    score.jobs(
        "
pair 0 0 of no request | 2 2 | / 0 0               |  | 18
pair 1 0 of no request | 2 2 | / 1 0               |  | 18
pair 0 0 of one        | 2 2 | Q / 0 0             |  | 18
pair 1 0 of one        | 2 2 | Q / 1 0             |  | 18
rest is no request     | 2 2 | Q 0 1 0 / 1 0       |  | 18
pair 0 1               | 2 2 | Q*2 / 0 1           |  | 18
pair 1 1               | 2 2 | Q*2 / 1 1           |  | 18
pair 2 0               | 2 2 | Q*2 / 2 0           |  | 18
pair 1 2               | 2 2 | Q*2 / 1 2           |  | 18
later 65,537           | 2 2 | Q*2 / 65537 0       |  | 18
earlier 65,536         | 2 2 | Q*2 / 1 65536       |  | 18
both too wide          | 2 2 | Q*2 / 65537 65536   |  | 18
pair 512 0 of 512      | 2 2 | Q*512 / 512 0       |  | 18
pairs 1 0, 1 0         | 2 2 | Q*2 / 1 0 1 0       |  | 18
pairs 2 0, 1 0         | 2 2 | Q*3 / 2 0 1 0       |  | 18
pairs 2 1, 2 0         | 2 2 | Q*3 / 2 1 2 0       |  | 18
pairs 3 0, 2 1         | 2 2 | Q*4 / 3 0 2 1       |  | 18
pairs 1 0, 2 0, 1 0    | 2 2 | Q*3 / 1 0 2 0 1 0   |  | 18
pairs 256 0, 255 0     | 2 2 | Q*512 / 256 0 255 0 |  | 18
",
    )
}

// The pairs are checked behind every request and before every grant, the length and the buffer.
fn job_pair_faults(score: &mut Score) -> Result<(), Fault> {
    score.jobs(
        "
heads bad, pair bad         | 2 33  | Q*2 / 1 1            |            | 5
513 requests, pair bad      | 2 2   | Q*513 / 1 1          |            | 9
place 4, pair bad           | 4 2   | Q 0 1 0 4 / 1 1      |            | 8
pair bad, grant bad         | 4 2   | Q*2 / 1 1            | 02         | 18
pair, grant bad             | 4 2   | Q*2 / 1 0            | 02         | 10
rest of one, grant bad      | 2 2   | Q*2 / 9              | 02         | 10
pair bad, 32,772 bytes      | 2 2   | Q*2 / 1 1            | 00*2086921 | 18
pair bad, empty buffer      | 2 2 0 | Q*2 / 1 1            |            | 18
4,778 pairs, last one twice | 2 2   | Q*512 / P*4777 98 23 |            | 18
4,778 pairs, grant bad      | 2 2   | Q*512 / P*4778       | 02         | 10
98 requests, 4,777 pairs    | 2 2   | Q*98 / P*4777        |            | 18
",
    )
}

// The length (1) and the buffer (14) count the pairs.
fn job_pair_lengths(score: &mut Score) -> Result<(), Fault> {
    score.jobs(
        "
buffer of 32 bytes                      | 2 2 32    | Q*2 / 1 0      |            | 0 32    | 0 2 2 2 0 0 1          | J Q*2 W =
buffer of 31 bytes                      | 2 2 31    | Q*2 / 1 0      |            | 14
buffer of 31 bytes, 4 places            | 4 2 31    | Q*2 / 1 0      |            | 14
buffer of 26 bytes, rest of one         | 2 2 26    | Q*2 / 1        |            | 0 26    | 0 2 2 2 0 0 0          | J Q*2 =
32,768 bytes, 2,086,920 grants          | 2 2       | Q*2 / 1 0      | 00*2086920 | 0 32768 | 0 2 2 2 2086920 8184 1 | J Q*2 W R*8184 =
32,772 bytes, 2,086,921 grants          | 2 2       | Q*2 / 1 0      | 00*2086921 | 1
32,768 bytes, 512 requests, 4,777 pairs | 2 2       | Q*512 / P*4777 |            | 0 32768 | 0 2 2 512 0 0 4777     | J Q*512 P*4777 =
32,772 bytes, and a grant               | 2 2       | Q*512 / P*4777 | 00         | 1
32,774 bytes, 4,778 pairs               | 2 2       | Q*512 / P*4778 |            | 1
32,774 bytes, empty buffer              | 2 2 0     | Q*512 / P*4778 |            | 1
32,768 bytes, 104 requests, 5,321 pairs | 2 2       | Q*104 / P*5321 |            | 0 32768 | 0 2 2 104 0 0 5321     | J Q*104 P*5321 =
32,774 bytes, 5,322 pairs               | 2 2       | Q*104 / P*5322 |            | 1
buffer of 32,768 bytes                  | 2 2 32768 | Q*512 / P*4777 |            | 0 32768 | 0 2 2 512 0 0 4777     | J Q*512 P*4777 =
buffer of 32,767 bytes                  | 2 2 32767 | Q*512 / P*4777 |            | 14
",
    )
}

// Rights behind the heads (02, A5); a rest of one or two numbers is no right.
fn job_rights(score: &mut Score) -> Result<(), Fault> {
    score.jobs(
        "
join alone, enquire alone | 4 2  | 0 1 2 3 1 2 0 1 / / 0 1 1 1 2 3     | 01 01 00*13 01  | 0 54  | 0 4 2 2 16 3 0 2  | 44 4B 04 00 02 00 52 54 00 01 01 00 00 00 52 54 01 02 03 00 00 00 52 51 00 01 02 00 03 00 52 51 01 02 00 00 01 00 47 52 01 02 47 52 00 0D 47 52 01 01 43 4C 48 10
with a pair               | 4 2  | 0 1 0 1 1 2 0 1 / 1 0 / 0 3 3 1 3 2 | 01*3 00*13 01*6 | 0 60  | 0 4 2 2 22 3 1 2  | 44 4B 04 00 02 00 52 54 00 03 03 00 00 00 52 54 01 03 02 00 00 00 52 51 00 01 00 00 01 00 52 51 01 02 00 00 01 00 41 46 01 00 00 00 47 52 01 03 47 52 00 0D 47 52 01 06 43 4C 09 C1
no right                  | 2 2  | Q / /                               |                 | 0 18  | 0 2 2 1 0         | J Q =
rest of one number        | 2 2  | / / 9                               |                 | 0 10  | 0 2 2 0 0         | J =
rest of two numbers       | 2 2  | / / 9 9                             |                 | 0 10  | 0 2 2 0 0         | J =
rights and a rest         | 2 2  | / / V*2 9 9                         |                 | 0 26  | 0 2 2 0 0 0 0 2   | J V*2 =
32 rights                 | 2 32 | / / V*32                            |                 | 0 266 | 0 2 32 0 0 0 0 32 | 44 4B 02 00 20 00 V*32 =
masks of all of three     | 2 3  | / / 0 3 7 1 3 7 2 3 7               |                 | 0 34  | 0 2 3 0 0 0 0 3   | 44 4B 02 00 03 00 52 54 00 03 07 00 00 00 52 54 01 03 07 00 00 00 52 54 02 03 07 00 00 00 =
mask of bit 16            | 2 17 | / / V*16 16 3 65537                 |                 | 0 146 | 0 2 17 0 0 0 0 17 | 44 4B 02 00 11 00 V*16 52 54 10 03 01 00 01 00 =
",
    )
}

// Neither none nor one a head (19), then each right (19), behind places and heads and before the count of the requests.
fn job_right_fields(score: &mut Score) -> Result<(), Fault> {
    score.jobs(
        "
one of two                 | 2 2   | / / V                     |    | 19
three of two               | 2 2   | / / V*3                   |    | 19
33 of 32                   | 2 32  | / / V*33                  |    | 19
three, 33 heads            | 2 33  | / / V*3                   |    | 5
three, no place            | 0 2   | / / V*3                   |    | 4
first of head 1            | 2 2   | / / 1 3 3 0 3 3           |    | 19
second of head 257         | 2 2   | / / V 257 3 3             |    | 19
rights 0                   | 2 2   | / / 0 0 3 1 3 3           |    | 19
rights 4                   | 2 2   | / / 0 4 3 1 3 3           |    | 19
rights 259                 | 2 2   | / / 0 259 3 1 3 3         |    | 19
bit 2 of two heads         | 2 2   | / / 0 3 4 1 3 3           |    | 19
bit 16 of two heads        | 2 2   | / / 0 3 65536 1 3 3       |    | 19
one of two, 513 requests   | 2 2   | Q*513 / / V               |    | 19
rights 4, 513 requests     | 2 2   | Q*513 / / 0 4 3 1 4 3     |    | 19
rights, 513 requests       | 2 2   | Q*513 / / V*2             |    | 9
rights 4, request bad      | 2 2   | 2 1 0 1 / / 0 4 3 1 3 3   |    | 19
union, enquire alone       | 2 2   | Q / / 0 2 3 1 3 3         |    | 20
same-set, join alone       | 2 2   | 0 2 0 1 / / 0 1 3 1 3 3   |    | 20
20, grant of head 9        | 2 2   | Q / / 0 2 3 1 3 3         | 09 | 20
20, pair bad               | 2 2   | Q*2 / 1 1 / 0 2 3 1 3 3   |    | 20
place bad, and not allowed | 2 2   | 0 1 2 1 / / 0 2 3 1 3 3   |    | 8
second request not allowed | 2 2   | Q 1 1 0 1 / / 0 1 3 1 2 3 |    | 20
20, then place bad         | 2 2   | Q 0 1 2 1 / / 0 2 3 1 3 3 |    | 20
rights, grant bad          | 2 2   | Q / / V*2                 | 02 | 10
19, empty buffer           | 2 2 0 | / / V                     |    | 19
",
    )
}

// The length (1) and the buffer (14) count the rights.
fn job_right_lengths(score: &mut Score) -> Result<(), Fault> {
    score.jobs(
        "
buffer of 26 bytes       | 2 2 26 | / / V*2 |            | 0 26    | 0 2 2 0 0 0 0 2          | J V*2 =
buffer of 25 bytes       | 2 2 25 | / / V*2 |            | 14
32,766 bytes, 8,185 runs | 2 2    | / / V*2 | 00*2087175 | 0 32766 | 0 2 2 0 2087175 8185 0 2 | J V*2 R*8185 =
32,770 bytes, 8,186 runs | 2 2    | / / V*2 | 00*2087176 | 1
",
    )
}

// Reads every file without pairs.
fn read_files(score: &mut Score) -> Result<(), Fault> {
    score.say("reader: number places heads requests grants runs pairs rights");
    file_cuts(score)?;
    file_marks(score)?;
    file_sizes(score)?;
    file_heads(score)?;
    file_fields(score)?;
    file_first_faults(score)?;
    file_sample(score)?;
    file_runs(score)?;
    file_requests(score)?;
    file_lengths(score)
}

// Reads every file with pairs.
fn read_pairs(score: &mut Score) -> Result<(), Fault> {
    file_pair_sample(score)?;
    file_pair_cuts(score)?;
    file_pair_places(score)?;
    file_pair_fields(score)?;
    file_pair_order(score)?;
    file_pair_faults(score)?;
    file_pair_lengths(score)
}

// Reads every file with rights.
fn read_rights(score: &mut Score) -> Result<(), Fault> {
    file_right_samples(score)?;
    file_right_places(score)?;
    file_right_fields(score)?;
    file_right_kinds(score)?;
    file_right_lengths(score)
}

// Writes every job without pairs.
fn write_jobs(score: &mut Score) -> Result<(), Fault> {
    score.say("writer: number bytes, then what the reader answers for the written file");
    job_samples(score)?;
    job_runs(score)?;
    job_sizes(score)?;
    job_heads(score)?;
    job_fields(score)?;
    job_requests(score)?;
    job_lengths(score)?;
    job_buffers(score)
}

// Writes every job with pairs.
fn write_pairs(score: &mut Score) -> Result<(), Fault> {
    job_pairs(score)?;
    job_pair_fields(score)?;
    job_pair_faults(score)?;
    job_pair_lengths(score)
}

// Writes every job with rights.
fn write_rights(score: &mut Score) -> Result<(), Fault> {
    job_rights(score)?;
    job_right_fields(score)?;
    job_right_lengths(score)
}

fn main(rt: HostRuntime) -> Result<(), Fault> {
    let mut score = Score::new(rt.stdout());
    read_files(&mut score)?;
    read_pairs(&mut score)?;
    read_rights(&mut score)?;
    write_jobs(&mut score)?;
    write_pairs(&mut score)?;
    write_rights(&mut score)?;
    score.end();
    Ok(())
}
