// The hits of a scan: counted always, listed while the lent buffer has room.
#![tactic(auto)]

ghost use Rattle.std.specs.Prelude.{◌≡◌, ◌<◌, List, [], ◌∷◌, ◌++◌, ℕ};
ghost use Rattle.rules.specs.scans.Hits.{Hit};
ghost use Rattle.words.specs.Items.{keywords_in};
ghost use Rattle.hits.specs.Tallies.{Tallied, Hitting, hit_of};

use rules::Totals;
use words::{Keywords, item_at, place_of};

// What a scan has found: how many hits, their energy, and how many of them are listed.
#[derive(Drop)]
pub struct Tally {
    pub count: usize,
    pub energy: u64,
    pub listed: usize,
}

impl Tally {
    // What a scan answers that has found this, and asked so many questions.
    pub fn totals(self, questions: usize) -> Totals
        requires { (self.count < 4294967296) × (questions < 4294967296) }
        ensures { result ≡ record { count = self.count; questions = questions; energy = self.energy } }
    {
        Totals {
            count: self.count as u32,
            questions: questions as u32,
            energy: self.energy,
        }
    }
}

// Nothing found yet.
pub fn nothing() -> Tally
    ensures { (old : List ℕ) → Tallied [] old result old }
{
    Tally {
        count: 0,
        energy: 0,
        listed: 0,
    }
}

// One hit more, at an end, of the keyword with a number.
pub fn list(words: Keywords<'_>, hits: &mut [u32], end: usize, number: usize, tally: Tally) -> Tally
    requires { (done : List Hit) × (old : List ℕ) × Hitting words.list.now end number done old tally hits.old }
    ensures { (done : List Hit) (old : List ℕ)
        → Hitting words.entry.list.now end number done old tally hits.old
        → Tallied (done ++ (hit_of (keywords_in words.entry.list.now) end number ∷ [])) old result hits.new }
{
    let at = tally.listed;
    let listed = if at < hits.len() / 2 {
        hits[2 * at] = end as u32;
        hits[2 * at + 1] = number as u32;
        at + 1
    } else {
        at
    };
    let keyword = item_at(words.list, place_of(words, number));
    Tally {
        count: tally.count + 1,
        energy: tally.energy + u64::from(keyword.energy),
        listed,
    }
}
