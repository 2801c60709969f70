// The numbers that the requests have on a sheet, made once, so that an entry finds its request's at once.
ghost use Rattle.stepper.specs.Shown.{requests_in};
ghost use Rattle.sheet.specs.Sight.{sighted};
ghost use Rattle.sheet.specs.Buffers.{Numbered};

use job::MOST_REQUESTS;
use reader::Accepted;

// The numbering of a file's requests, of which those are seen whose head's bit is set in `sight`, in a lent array: the compiler
// copies one that is given back, by a call of memcpy.
pub fn numbered(job: Accepted, sight: u32, numbers: &mut [Option<u16>; MOST_REQUESTS])
    ensures { Numbered (sighted sight (requests_in job.entry.file.now)) job.entry.counts.requests numbers.new }
{
    *numbers = [None; MOST_REQUESTS];
    let mut seen: u16 = 0;
    for q in 0..job.counts.requests {
        let request = job.request(q);
        if !mask::is_set(sight, u32::from(request.head)) {
            continue;
        }
        numbers[q as usize] = Some(seen);
        seen += 1;
    }
}
