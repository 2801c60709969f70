// The requests of an accepted file, read where they stand: a head's next one, and by an index a request's successor.
ghost use Rattle.std.specs.Prelude.{IfSome, unwrap_or, ◌≡◌, ◌+◌, ◌≤◌, ◌<◌};
ghost use Rattle.rules.specs.State.{request_at, seek};
ghost use Rattle.stepper.specs.Shown.{requests_in};
ghost use Rattle.stepper.specs.Index.{Indexes};

use reader::Accepted;

// The first request of head h from number `from` on.
pub fn next_request(job: Accepted, h: u32, from: u32) -> Option<u32>
    requires { from ≤ job.counts.requests }
    ensures sought { unwrap_or result job.entry.counts.requests ≡ seek (requests_in job.entry.file.now) h from }
    ensures found { IfSome result (λ q. q < job.entry.counts.requests) }
{
    for q in from..job.counts.requests {
        if u32::from(job.request(q).head) == h {
            return Some(q);
        }
    }
    None
}

// An accepted file with an index of its next requests, which may hold none: of those that it lacks the file is asked.
#[derive(Clone, Copy)]
pub struct Indexed<'a> {
    pub job: Accepted<'a>,
    pub successors: &'a [u16],
    ghost indexes: { Indexes (requests_in job.file.now) successors.now },
}

impl<'a> Indexed<'a> {
    // The next request of the head h of a request, or the number of requests: from the index where it has it, else searched for.
    // A number and no Option: the index and a head's record have it in two bytes.
    #[tactic(auto, using(crate::proofs::Needs::next_small))]
    pub fn successor(self, h: u32, request: u16) -> u16
        requires within { request < self.job.counts.requests }
        requires own { (request_at (requests_in self.job.file.now) request).head ≡ h }
        ensures { result ≡ seek (requests_in self.entry.job.file.now) h (request + 1) }
    {
        let at = usize::from(request);
        if at < self.successors.len() {
            return self.successors[at];
        }
        let requests = self.job.counts.requests;
        next_request(self.job, h, u32::from(request) + 1).unwrap_or(requests) as u16
    }
}
