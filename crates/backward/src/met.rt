// The numbers of the keywords that a window has met, in a fixed buffer.
ghost use Rattle.std.specs.Prelude.{◌≡◌, List, [], ◌∷◌, ◌++◌, ℕ, ◌<◌, ◌≤◌, length, take};
ghost use Rattle.rules.specs.sets.Limits.{longest_word};

use rules::LONGEST;
use std::marker::Model;

// The numbers of the keywords that a window has met, in the order met. A proof sees their list.
#[derive(Drop)]
pub(crate) struct Met {
    keys: [u16; LONGEST],
    count: usize,
}

impl Model for Met {
    ghost Value = { List ℕ };

    ghost view = { λ met. take met.count met.keys };

    ghost invariant = { λ met. met.count ≤ longest_word };
}

impl Met {
    // None met yet.
    pub(crate) fn empty() -> Met
        ensures { result ≡ [] }
    {
        Met {
            keys: [0; LONGEST],
            count: 0,
        }
    }

    // None met again, for the next window.
    pub(crate) fn clear(&mut self)
        ensures { self.new ≡ [] }
    {
        self.count = 0;
    }

    // One more.
    pub(crate) fn push(&mut self, number: u16)
        requires { length self.old < longest_word }
        ensures { self.new ≡ self.old ++ (number ∷ []) }
    {
        self.keys[self.count] = number;
        self.count += 1;
    }

    // All of them.
    pub(crate) fn numbers(&self) -> &[u16]
        ensures { result.now ≡ self.now }
    {
        &self.keys[..self.count]
    }
}
