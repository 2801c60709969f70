// The head of a grant: as the grant finds it, beginning its next request or going on, and at rest after its request's end.
ghost use Rattle.std.specs.Prelude.{◌≡◌, ◌<◌};
ghost use Rattle.rules.specs.State.{request_at};
ghost use Rattle.rules.specs.Step.{ready, settled};
ghost use Rattle.stepper.specs.Shown.{requests_in};

use crate::requests::Indexed;
use process::{Advanced, Head, Task};
use reader::Accepted;

// The head as a grant finds it: going on, or beginning its next request.
pub fn ready_head(job: Accepted, head: Head) -> Head
    requires { head.task.request < job.counts.requests }
    ensures { result ≡ ready (requests_in job.entry.file.now) head }
{
    if process::is_resting(head) {
        let number = head.task.request;
        return process::begin(job.request(u32::from(number)), number);
    }
    head
}

// The head after a grant: where its request is finished it rests before its next one.
pub fn settled_head(indexed: Indexed, h: u32, moved: Advanced) -> Head
    requires within { moved.head.task.request < indexed.job.counts.requests }
    requires own { (request_at (requests_in indexed.job.file.now) moved.head.task.request).head ≡ h }
    ensures { result ≡ settled (requests_in indexed.entry.job.file.now) h moved }
{
    let head = moved.head;
    if !rules::is_final(moved.event.answer) {
        return head;
    }
    let request = indexed.successor(h, head.task.request);
    Head {
        task: Task {
            request,
            ..head.task
        },
        ..head
    }
}
