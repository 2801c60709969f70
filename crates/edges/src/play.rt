// How a row is played: a file is read, or a job is written and its file read again, and the answers are compared.
//
//   file row   label | file | number places heads requests grants runs pairs rights
//   job row    label | places heads [room] | requests [/ pairs [/ rights]] | grants | number bytes | number places .. rights | file
//
// The last two fields of a job row are what the reader answers for the written file, and that file, built by hand; a
// refusal has neither. A pair (02, A3) is two numbers, later and earlier, a right (02, A5) three, head, rights and mask. Without
// a room the writer gets a buffer of 32,774 bytes, room for a file that is a pair too long. Numbers left out elsewhere are zeros.
use crate::build::{PAIRS, add_bytes, numbers_of};
use crate::list::List;
use crate::score::Score;
use crate::text::{Fault, field, list};
use reader::Accepted;

// What stands in a buffer before the writer gets it.
const UNWRITTEN: u8 = 0xEE;

// Room for a file, and for one that is a pair too long.
const FILE_ROOM: usize = 32774;

// Room for the numbers of an answer.
const ANSWER_ROOM: usize = 8;

// Room for the numbers of 513 requests.
const REQUEST_ROOM: usize = 2052;

// Room for the numbers of all pairs of a list.
const PAIR_ROOM: usize = 2 * PAIRS;

// Room for the numbers of 33 rights.
const RIGHT_ROOM: usize = 99;

// Room for the grants of 8,189 runs of 255, and one more.
const GRANT_ROOM: usize = 2088196;

// What the reader answers: 0 and the counts of the file's job, or a refusal's number and zeros.
fn read(file: &[u8]) -> [u32; ANSWER_ROOM] {
    match Accepted::check(file) {
        Ok(job) => {
            let counts = job.counts;
            [
                0,
                counts.nodes,
                counts.heads,
                counts.requests,
                counts.grants,
                counts.runs,
                counts.waits,
                counts.rights,
            ]
        }
        Err(refusal) => [u32::from(refusal), 0, 0, 0, 0, 0, 0, 0],
    }
}

// Whether numbers are those that a field expects.
fn are_expected(numbers: &[u32], field: &str) -> Result<bool, Fault> {
    let expected: List<u32, ANSWER_ROOM> = numbers_of(field)?;
    Ok(expected.as_filled().starts_with(numbers))
}

// What a job row gives to the writer, but for the grants.
#[derive(Drop)]
struct Job {
    nodes: u32,
    heads: u32,
    room: usize,
    rights: List<u32, RIGHT_ROOM>,
    requests: List<u32, REQUEST_ROOM>,
    waits: List<u32, PAIR_ROOM>,
}

impl Job {
    // The job of a row.
    fn of(row: &str) -> Result<Job, Fault> {
        let sizes: List<u32, 3> = numbers_of(field(row, 1))?;
        let sizes = sizes.as_slice();
        let lists = field(row, 2);
        Ok(Job {
            nodes: sizes.get(0).copied().unwrap_or(0),
            heads: sizes.get(1).copied().unwrap_or(0),
            room: sizes.get(2).map_or(FILE_ROOM, |&room| room as usize),
            rights: numbers_of(list(lists, 2))?,
            requests: numbers_of(list(lists, 0))?,
            waits: numbers_of(list(lists, 1))?,
        })
    }

    // What the writer answers, given a list without items and the field of its grants: 0 and the bytes written, or a refusal's number
    // and 0. The list is handed over as it is made: a build that isn't optimized holds one copy more, two megabytes, of one with a name.
    fn write(
        &self,
        mut grants: List<u8, GRANT_ROOM>,
        field: &str,
        out: &mut [u8],
    ) -> Result<[u32; 2], Fault> {
        add_bytes(&mut grants, field)?;
        let answer = writer::write(
            self.nodes,
            self.heads,
            self.rights.as_slice(),
            self.requests.as_slice(),
            self.waits.as_slice(),
            grants.as_slice(),
            out,
        );
        Ok(match answer {
            Ok(bytes) => [0, bytes],
            Err(refusal) => [u32::from(refusal), 0],
        })
    }
}

// Plays a file row.
fn play_file(score: &mut Score, row: &str) -> Result<(), Fault> {
    score.begin(field(row, 0));
    let mut file: List<u8, FILE_ROOM> = List::new(0);
    add_bytes(&mut file, field(row, 1))?;
    let answer = read(file.as_slice());
    score.tell(&answer);
    score.judge(are_expected(&answer, field(row, 2))?);
    Ok(())
}

// Reads the written file again, prints the answer, and gives whether the row expects it. A refusal has left no file.
fn read_again(score: &Score, file: &[u8], row: &str) -> Result<bool, Fault> {
    if file.is_empty() {
        return are_expected(&[0; ANSWER_ROOM], field(row, 5));
    }
    let answer = read(file);
    score.tell(&answer);
    are_expected(&answer, field(row, 5))
}

// Whether bytes are those that a field's words stand for.
fn are_meant(bytes: &[u8], field: &str) -> Result<bool, Fault> {
    let mut meant: List<u8, FILE_ROOM> = List::new(0);
    add_bytes(&mut meant, field)?;
    Ok(bytes == meant.as_slice())
}

// Plays a job row: the writer gets the first part of a buffer.
fn play_job(score: &mut Score, row: &str) -> Result<(), Fault> {
    score.begin(field(row, 0));
    let job = Job::of(row)?;
    let mut buffer = [UNWRITTEN; FILE_ROOM];
    let out = buffer.get_mut(..job.room).ok_or(Fault::Full)?;
    let answer = job.write(List::new(0), field(row, 3), out)?;
    score.tell(&answer);
    let Some((file, rest)) = buffer.split_at_checked(answer[1] as usize) else {
        score.judge(false);
        return Ok(());
    };
    let is_right = read_again(score, file, row)?
        && are_expected(&answer, field(row, 4))?
        && are_meant(file, field(row, 6))?
        && rest.iter().all(|&byte| byte == UNWRITTEN);
    score.judge(is_right);
    Ok(())
}

impl Score {
    // Plays the rows of a table, one a line.
    fn play<F: Fn(&mut Score, &str) -> Result<(), Fault>>(
        &mut self,
        table: &str,
        play_row: F,
    ) -> Result<(), Fault>
        requires { F.IsAlwaysCallable play_row }
    {
        for row in table.lines() {
            if !row.is_empty() {
                play_row(self, row)?;
            }
        }
        Ok(())
    }

    // Plays the file rows of a table.
    pub fn files(&mut self, table: &str) -> Result<(), Fault> {
        self.play(table, play_file)
    }

    // Plays the job rows of a table.
    pub fn jobs(&mut self, table: &str) -> Result<(), Fault> {
        self.play(table, play_job)
    }
}
