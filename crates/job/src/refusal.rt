// What a call is turned down with, and the number that hosts are told.
ghost use Rattle.std.specs.Prelude.{◌≡◌};
ghost use Rattle.job.specs.Refusal.{number_of};

// What a call is turned down with.
#[derive(Clone, Copy, Debug, PartialEq, Eq)]
pub enum Refusal {
    FileTooLong,
    FileEndsEarly,
    Mark,
    Places,
    Heads,
    RequestHead,
    RequestKind,
    RequestPlace,
    TooManyRequests,
    Grant,
    SplitRun,
    AfterClose,
    Balance,
    Buffer,
    Enquiry,
    Word,
    Page,
    Wait,
    Rights,
    RequestRights,
}

impl From<Refusal> for u32 {
    ghost from_gives = { λ refusal number. number ≡ number_of refusal };

    fn from(refusal: Refusal) -> u32 {
        match refusal {
            Refusal::FileTooLong => 1,
            Refusal::FileEndsEarly => 2,
            Refusal::Mark => 3,
            Refusal::Places => 4,
            Refusal::Heads => 5,
            Refusal::RequestHead => 6,
            Refusal::RequestKind => 7,
            Refusal::RequestPlace => 8,
            Refusal::TooManyRequests => 9,
            Refusal::Grant => 10,
            Refusal::SplitRun => 11,
            Refusal::AfterClose => 12,
            Refusal::Balance => 13,
            Refusal::Buffer => 14,
            Refusal::Enquiry => 15,
            Refusal::Word => 16,
            Refusal::Page => 17,
            Refusal::Wait => 18,
            Refusal::Rights => 19,
            Refusal::RequestRights => 20,
        }
    }
}
