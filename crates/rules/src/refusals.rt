// A refusal's number and place in document 01, and how a refusal is printed.
ghost use Rattle.std.specs.Prelude.{◌≡◌};
ghost use Rattle.rules.specs.answers.Answers.{number_of, place_of};

use crate::Refusal;
use std::error::Error;
use std::fmt;

impl Refusal {
    // A refusal's number in document 01.
    pub fn number(self) -> u16
        ensures { result ≡ number_of self }
    {
        match self {
            Refusal::SetEmpty => 1,
            Refusal::SetSize => 2,
            Refusal::TooManyKeywords => 3,
            Refusal::Length { .. } => 4,
            Refusal::Padding { .. } => 5,
            Refusal::Repeated { .. } => 6,
            Refusal::TraceTooLong => 8,
            Refusal::WorkspaceShort { .. } => 9,
            Refusal::RowFileSize { .. } => 10,
            Refusal::RowNamesAnother { .. } => 11,
            Refusal::RowNumber { .. } => 12,
            Refusal::ByteFileSize => 13,
            Refusal::FarNumber { .. } => 14,
            Refusal::RowBufferShort { .. } => 15,
            Refusal::ByteBufferShort => 16,
            Refusal::AnswerShort => 17,
        }
    }

    // A refusal's place, 0 where none is named.
    pub fn place(self) -> u16
        ensures { result ≡ place_of self }
    {
        match self {
            Refusal::SetEmpty
            | Refusal::SetSize
            | Refusal::TooManyKeywords
            | Refusal::TraceTooLong
            | Refusal::ByteFileSize
            | Refusal::ByteBufferShort
            | Refusal::AnswerShort => 0,
            Refusal::Length { record }
            | Refusal::Padding { record }
            | Refusal::Repeated { record } => record,
            Refusal::WorkspaceShort { rows }
            | Refusal::RowFileSize { rows }
            | Refusal::RowBufferShort { rows } => rows,
            Refusal::RowNamesAnother { row } | Refusal::RowNumber { row } => row,
            Refusal::FarNumber { place } => place,
        }
    }
}

// "refusal", the number and the place.
impl fmt::Display for Refusal {
    ghost use Rattle.std.specs.Prelude.{Some};
    ghost use Rattle.rules.specs.answers.Answers.{refusal_text};

    ghost output = { λ why. Some (refusal_text why) };

    fn fmt<W: fmt::Write>(&self, f: &mut fmt::Formatter<W>) -> fmt::Result {
        write!(f, "refusal {} {}", self.number(), self.place())
    }
}

impl Error for Refusal {}
