// The records of a job file, written one after the other into a lent buffer.
ghost use Rattle.std.specs.Prelude.{◌≡◌, ◌+◌, ◌*◌, ◌<◌, ◌≤◌, ℕ, List, [], ◌∷◌, ◌++◌, map, length, get_or, take};
ghost use Rattle.std.proofs.lemmas.List.Edits.{sets};
ghost use Rattle.job.specs.Job.{most_nodes, most_heads, most_requests};
ghost use Rattle.jobfile.specs.Format.{job_mark, job_size, right_size, request_size, wait_size, run_size, close_size, word_bytes};
ghost use Rattle.jobfile.specs.Format.{fields_refusal};
ghost use Rattle.jobfile.specs.Format.{request_of, no_pair};
ghost use Rattle.jobfile.specs.Written.{records_bytes, right_bytes, rights_bytes, request_bytes, requests_bytes, wait_bytes, waits_bytes};
ghost use Rattle.jobfile.specs.Written.{run_bytes, runs_bytes};
ghost use Rattle.jobfile.specs.Written.{longest_runs, written};
ghost use Rattle.jobfile.specs.Draft.{rights_given, fields_of, pairs_of, each_right_refusal, each_refusal, pairs_refusal, job_of};
ghost use Rattle.jobfile.specs.Admitted.{Pairs};
ghost use Rattle.writer.specs.Write.{Put, right_from, fields_from, pair_from, given, write_refusal, close_bytes};

use crate::checks::{Draft, run_at};
use fields::bytes::sum_words;
use jobfile::{
    CLOSE_MARK, JOB_MARK, JOB_SIZE, REQUEST_MARK, REQUEST_SIZE, RIGHT_MARK, RIGHT_SIZE, RUN_MARK,
    RUN_SIZE, Run, WAIT_MARK, WAIT_SIZE,
};

// Stores two bytes.
fn put_bytes(out: &mut [u8], at: usize, low: u8, high: u8)
    requires { at + 2 ≤ length out.old }
    ensures { out.new ≡ sets out.old at (low ∷ high ∷ []) }
{
    out[at] = low;
    out[at + 1] = high;
}

// Stores a 16-bit word, low byte first.
fn put_word(out: &mut [u8], at: usize, word: u16)
    requires { at + 2 ≤ length out.old }
    ensures { out.new ≡ sets out.old at (word_bytes word) }
{
    put_bytes(out, at, (word % 256) as u8, (word / 256) as u8);
}

// Stores a mark and two words behind it.
fn put_words(out: &mut [u8], at: usize, mark: u16, first: u16, second: u16)
    requires { at + 6 ≤ length out.old }
    ensures { out.new ≡ sets out.old at (word_bytes mark ++ word_bytes first ++ word_bytes second) }
{
    put_word(out, at, mark);
    put_word(out, at + 2, first);
    put_word(out, at + 4, second);
}

// Stores a mark, two bytes behind it, and two words behind these.
fn put_record(out: &mut [u8], at: usize, mark: u16, first: u8, second: u8, third: u16, fourth: u16)
    requires { at + 8 ≤ length out.old }
    ensures { out.new
        ≡ sets out.old at (word_bytes mark ++ (first ∷ second ∷ []) ++ word_bytes third ++ word_bytes fourth) }
{
    put_word(out, at, mark);
    put_bytes(out, at + 2, first, second);
    put_word(out, at + 4, third);
    put_word(out, at + 6, fourth);
}

// Writes the job's record.
fn put_header(out: &mut [u8], nodes: u16, heads: u16)
    requires { job_size ≤ length out.old }
    ensures { out.new ≡ sets out.old 0 (word_bytes job_mark ++ word_bytes nodes ++ word_bytes heads) }
{
    put_words(out, 0, JOB_MARK, nodes, heads);
}

// Writes rows of numbers, each by a call as a record of that size, and gives the position behind them. A row is of any type: the
// length of an array can't stand in the bound of a call.
fn put_rows<R: Copy, F: Fn(&mut [u8], usize, R)>(
    out: &mut [u8],
    start: usize,
    size: usize,
    rows: &[R],
    put: F,
) -> usize
    requires room { start + size * length rows.now ≤ length out.old }
    requires calls { (i : ℕ) (row : R) (out : _) (at : ℕ) → i < length rows.now → row ≡ get_or rows.now i row
        → at + size ≤ length out.now → F.pre put out at row }
    ensures end { result ≡ start + size * length rows.now }
    ensures written { (bytes : R → List ℕ)
        → ((i : ℕ) (row : R) (before : _) (at : ℕ) (after : _) → i < length rows.now → row ≡ get_or rows.now i row
        → F.post put before at row tt after → Put size (bytes row) at before.now after.now)
        → out.new ≡ sets out.old start (records_bytes bytes rows.now) }
{
    let mut at = start;
    for &row in rows {
        put(out, at, row);
        at += size;
    }
    at
}

// Writes a right (02, A5) of a head of the largest job, so that its numbers fit their fields.
fn put_right(out: &mut [u8], at: usize, row: [u32; 3])
    requires right_size_in_bounds { at + right_size ≤ length out.old }
    requires head_lt_most_heads { (right_from row 0).head < most_heads }
    requires rights_fit { (right_from row 0).rights ≤ 3 }
    ensures { out.new ≡ sets out.old at (right_bytes (right_from row 0)) }
{
    let [head, rights, sight] = row;
    let low = sight % 65536;
    let high = sight / 65536;
    put_record(
        out,
        at,
        RIGHT_MARK,
        head as u8,
        rights as u8,
        low as u16,
        high as u16,
    );
}

// Writes the rights, and gives the position behind them.
#[tactic(auto, using(crate::proofs::Rights::rights_count))]
fn put_rights(out: &mut [u8], start: usize, rights: &[u32]) -> usize
    requires rights_in_bounds { start + right_size * length (rights_given rights.now) ≤ length out.old }
    requires rights_len_bound { length (rights_given rights.now) ≤ most_heads }
    requires rights_admitted { each_right_refusal most_heads 0 (rights_given rights.now) ≡ 0 }
    ensures end { result ≡ start + right_size * length (rights_given rights.now) }
    ensures written { out.new ≡ sets out.old start (rights_bytes (rights_given rights.now)) }
{
    put_rows(out, start, RIGHT_SIZE, rights.as_chunks::<3>().0, put_right)
}

// Writes a request whose numbers are admitted in the largest job, so that each fits its field.
#[tactic(auto, using(jobfile::proofs::Refusals::fit, crate::proofs::Stores::request_written))]
fn put_request(out: &mut [u8], at: usize, row: [u32; 4])
    requires request_size_in_bounds { at + request_size ≤ length out.old }
    requires fields_admitted { fields_refusal most_nodes most_heads (fields_from row 0) ≡ 0 }
    ensures { out.new ≡ sets out.old at (request_bytes (request_of (fields_from row 0))) }
{
    let [head, kind, x, y] = row;
    put_record(
        out,
        at,
        REQUEST_MARK,
        head as u8,
        kind as u8,
        x as u16,
        y as u16,
    );
}

// Writes the requests, and gives the position behind them.
#[tactic(auto, using(crate::proofs::Requests::fields_count))]
fn put_requests(out: &mut [u8], start: usize, requests: &[u32]) -> usize
    requires requests_in_bounds { start + request_size * length (fields_of requests.now) ≤ length out.old }
    requires requests_admitted { each_refusal most_nodes most_heads [] (fields_of requests.now) ≡ 0 }
    ensures end { result ≡ start + request_size * length (fields_of requests.now) }
    ensures written { out.new ≡ sets out.old start (requests_bytes (map request_of (fields_of requests.now))) }
{
    put_rows(
        out,
        start,
        REQUEST_SIZE,
        requests.as_chunks::<4>().0,
        put_request,
    )
}

// Writes a pair that is admitted in the largest job, so that both numbers fit their fields.
fn put_wait(out: &mut [u8], at: usize, row: [u32; 2])
    requires wait_size_in_bounds { at + wait_size ≤ length out.old }
    requires pairs { Pairs most_requests (pair_from row 0) }
    ensures { out.new ≡ sets out.old at (wait_bytes (pair_from row 0)) }
{
    let [later, earlier] = row;
    put_words(out, at, WAIT_MARK, later as u16, earlier as u16);
}

// Writes the pairs, and gives the position behind them.
#[tactic(auto, using(crate::proofs::Pairs::pairs_count))]
fn put_waits(out: &mut [u8], start: usize, waits: &[u32]) -> usize
    requires waits_in_bounds { start + wait_size * length (pairs_of waits.now) ≤ length out.old }
    requires waits_admitted { pairs_refusal most_requests no_pair (pairs_of waits.now) ≡ 0 }
    ensures end { result ≡ start + wait_size * length (pairs_of waits.now) }
    ensures written { out.new ≡ sets out.old start (waits_bytes (pairs_of waits.now)) }
{
    put_rows(out, start, WAIT_SIZE, waits.as_chunks::<2>().0, put_wait)
}

// Writes a run.
fn put_run(out: &mut [u8], at: usize, run: Run)
    requires { at + run_size ≤ length out.old }
    ensures { out.new ≡ sets out.old at (run_bytes run) }
{
    put_word(out, at, RUN_MARK);
    put_bytes(out, at + 2, run.head, run.count);
}

// Writes the longest runs of the grants, and gives the position behind them. A turn is a run, and no index is counted.
fn put_runs(out: &mut [u8], start: usize, grants: &[u8]) -> usize
    requires { start + run_size * length (longest_runs grants.now) ≤ length out.old }
    ensures end { result ≡ start + run_size * length (longest_runs grants.now) }
    ensures written { out.new ≡ sets out.old start (runs_bytes (longest_runs grants.now)) }
{
    let mut at = start;
    let mut i = 0;
    while i < grants.len() {
        let run = run_at(grants, i);
        put_run(out, at, run);
        i += usize::from(run.count);
        at += RUN_SIZE;
    }
    at
}

// Writes the close of a file whose other records end at a position. The balance is the difference from zero of all
// words before it, the close's mark included.
fn put_close(out: &mut [u8], at: usize)
    requires { at + close_size ≤ length out.old }
    ensures { out.new ≡ sets out.old at (close_bytes (take at out.old)) }
{
    put_word(out, at, CLOSE_MARK);
    let end = at + 2;
    let sum = sum_words(&out[..end]);
    put_word(out, end, sum.wrapping_neg());
}

// Writes the file of a job that is admitted, into a buffer that it fits.
#[tactic(auto, using(crate::proofs::File::put_file_lemmas))]
pub fn put_file(draft: Draft<'_>, out: &mut [u8])
    requires { write_refusal (given draft.nodes draft.heads draft.rights.now draft.requests.now draft.waits.now draft.grants.now)
        (length out.old)
        ≡ 0 }
    ensures { out.new
        ≡ sets out.old 0
        (written (job_of (given draft.entry.nodes draft.entry.heads draft.entry.rights.now draft.entry.requests.now
        draft.entry.waits.now draft.entry.grants.now))) }
{
    put_header(out, draft.nodes as u16, draft.heads as u16);
    let asked = put_rights(out, JOB_SIZE, draft.rights);
    let pairs = put_requests(out, asked, draft.requests);
    let runs = put_waits(out, pairs, draft.waits);
    let close = put_runs(out, runs, draft.grants);
    put_close(out, close);
}
