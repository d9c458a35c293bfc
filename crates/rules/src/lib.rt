// What document 01 counts with, and how its answers are put in Rattle.
#![tactic(auto)]

mod refusals; // refusals.rt: a refusal's number and place, and how it is printed

// The most keywords of a set, bytes of a keyword and bytes of a trace.
pub const KEYWORDS: usize = 64;

pub const LONGEST: usize = 15;

pub const TRACE: usize = 1048576;

// The numbers of a row in a workspace, and of a workspace that is enough for every set: none has over 961 rows.
pub const CELLS: usize = 6;

pub const WORKSPACE: usize = 5766;

// The bytes of a row's record in a row file; the numbers of a byte's record in a byte file, the bytes that it speaks
// of, and its size.
pub const ROW: usize = 18;

pub const DEPTHS: usize = 16;

pub const OPCODES: usize = 256;

pub const BYTES: usize = 4096;

// The bytes of an answer.
pub const ANSWER: usize = 20;

// The way a keyword is read: from its first byte onwards, or from its last byte backwards.
#[derive(Clone, Copy, Debug, PartialEq, Eq)]
pub enum Way {
    Forward,
    Backward,
}

// Why a call is refused. `number_and_place` in specs/answers/Answers.antt gives document 01's number and place of each.
#[derive(Clone, Copy, Debug, PartialEq, Eq)]
pub enum Refusal {
    SetEmpty,
    SetSize,
    TooManyKeywords,
    Length { record: u16 },
    Padding { record: u16 },
    Repeated { record: u16 },
    TraceTooLong,
    WorkspaceShort { rows: u16 },
    RowFileSize { rows: u16 },
    RowNamesAnother { row: u16 },
    RowNumber { row: u16 },
    ByteFileSize,
    FarNumber { place: u16 },
    RowBufferShort { rows: u16 },
    ByteBufferShort,
    AnswerShort,
}

// What a scan found.
#[derive(Drop)]
pub struct Totals {
    pub count: u32,
    pub questions: u32,
    pub energy: u64,
}
