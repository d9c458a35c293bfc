// An answer in document 01's numbers, and in the twenty bytes of the host call.
ghost use Rattle.std.specs.Prelude.{◌≡◌, ◌≤◌, length};
ghost use Rattle.rules.specs.sets.Limits.{answer_size};
ghost use Rattle.rules.specs.scans.Hits.{over};
ghost use Rattle.rules.specs.answers.Answers.{number_of, place_of, told, told_refusal, told_counted, answer_bytes};
ghost use Rattle.bezowik.specs.Calls.{told_of};

use rules::{Refusal, Totals};

// An answer: number 0 is no refusal, and what an answer does not have is 0.
#[derive(Clone, Copy, Default)]
pub struct Answer {
    pub number: u16,
    pub place: u16,
    pub count: u32,
    pub questions: u32,
    pub energy: u64,
}

impl Answer {
    // The answer in its twenty bytes, at the front of a buffer.
    pub(crate) fn write(self, answer: &mut [u8])
        requires { answer_size ≤ length answer.old }
        ensures { answer.new ≡ over (answer_bytes (told_of self)) answer.old }
    {
        answer[0..2].copy_from_slice(&self.number.to_le_bytes());
        answer[2..4].copy_from_slice(&self.place.to_le_bytes());
        answer[4..8].copy_from_slice(&self.count.to_le_bytes());
        answer[8..12].copy_from_slice(&self.questions.to_le_bytes());
        answer[12..20].copy_from_slice(&self.energy.to_le_bytes());
    }
}

// The answer of a refusal: its number and its place.
impl From<Refusal> for Answer {
    ghost from_gives = { λ why a. told_of a ≡ told_refusal (number_of why) (place_of why) };

    fn from(why: Refusal) -> Answer {
        Answer {
            number: why.number(),
            place: why.place(),
            ..Answer::default()
        }
    }
}

// The answer of a scan.
impl From<Result<Totals, Refusal>> for Answer {
    ghost from_gives = { λ found a. told_of a ≡ told found };

    fn from(found: Result<Totals, Refusal>) -> Answer {
        match found {
            Err(why) => Answer::from(why),
            Ok(totals) => Answer {
                count: totals.count,
                questions: totals.questions,
                energy: totals.energy,
                ..Answer::default()
            },
        }
    }
}

// The answer of making or of the check: the rows stand where a scan has its count.
impl From<Result<u16, Refusal>> for Answer {
    ghost from_gives = { λ found a. told_of a ≡ told_counted found };

    fn from(found: Result<u16, Refusal>) -> Answer {
        match found {
            Err(why) => Answer::from(why),
            Ok(rows) => Answer {
                count: u32::from(rows),
                ..Answer::default()
            },
        }
    }
}
