// The format of job files in numbers: the marks and sizes of records, the numbers of a request, a run.
#![tactic(auto)]

// The marks of the six records, as 16-bit words, low byte first; a pair's is of 02, A3, a right's of 02, A5.
pub const JOB_MARK: u16 = 0x4B44;

pub const RIGHT_MARK: u16 = 0x5452;

pub const REQUEST_MARK: u16 = 0x5152;

pub const WAIT_MARK: u16 = 0x4641;

pub const RUN_MARK: u16 = 0x5247;

pub const CLOSE_MARK: u16 = 0x4C43;

// The bytes of the six records, and of the longest file.
pub const JOB_SIZE: usize = 6;

pub const RIGHT_SIZE: usize = 8;

pub const REQUEST_SIZE: usize = 8;

pub const WAIT_SIZE: usize = 6;

pub const RUN_SIZE: usize = 4;

pub const CLOSE_SIZE: usize = 4;

pub const MOST_BYTES: usize = 32768;

// The four numbers of a request, before they are known to fit.
#[derive(Clone, Copy, Debug, PartialEq, Eq)]
pub struct Fields {
    pub head: u32,
    pub kind: u32,
    pub x: u32,
    pub y: u32,
}

// A run: that many grants in a row for one head.
#[derive(Clone, Copy, Debug, PartialEq, Eq)]
pub struct Run {
    pub head: u8,
    pub count: u8,
}
