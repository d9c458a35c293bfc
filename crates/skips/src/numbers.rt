// inner and edge of a suffix, as document 01 words them: at each distance n from 1 up, each keyword is laid over the
// suffix so that n of its bytes stand behind it. docs/SKIPS.md draws it.
ghost use Rattle.std.specs.Prelude.{◌≡◌, ◌<◌};
ghost use Rattle.rules.specs.sets.Limits.{depths};
ghost use Rattle.rules.specs.skips.Skips.{holds_before, ends_within};
ghost use Rattle.words.specs.Items.{keywords_in};
ghost use Rattle.skips.specs.Suffixes.{Test, Asked, Answers, some_stops, largest_of};

use crate::measured::Measured;
use words::{Keywords, count_of, ends_with, item_at};

// inner's test: the keyword has the suffix with exactly n bytes after it. Without those n bytes it ends with the suffix.
pub(crate) fn holds_before(keyword: &[u16], suffix: &[u16], n: usize) -> bool
    requires { n < depths }
    ensures { result ≡ holds_before suffix.now n keyword.now }
{
    if keyword.len() < n + suffix.len() {
        return false;
    }
    let front = keyword.len() - n;
    ends_with(&keyword[..front], suffix)
}

// edge's test: some string made of the suffix and n further bytes ends with the keyword. The n bytes may be all of it;
// if not, the suffix ends with what stands before them.
pub(crate) fn ends_within(keyword: &[u16], suffix: &[u16], n: usize) -> bool
    ensures { result ≡ ends_within suffix.now n keyword.now }
{
    if keyword.len() <= n {
        return true;
    }
    let front = keyword.len() - n;
    ends_with(suffix, &keyword[..front])
}

// Whether some keyword stops the search for a number at the distance n.
fn some_stops<F: Fn(&[u16], &[u16], usize) -> bool>(
    words: Keywords<'_>,
    suffix: &[u16],
    n: usize,
    stops: F,
) -> bool
    requires { (n < depths) × Asked (F.pre stops) }
    ensures { (test : Test) → Answers (F.post stops) test
        → result ≡ some_stops test (keywords_in words.entry.list.now) suffix.now n }
{
    for k in 0..count_of(words.list) {
        if stops(item_at(words.list, k).units, suffix, n) {
            return true;
        }
    }
    false
}

// The number of a test: the least n from 1 up at which some keyword stops the search, capped at the shortest keyword's
// length.
pub(crate) fn largest<F: Fn(&[u16], &[u16], usize) -> bool + Copy>(
    set: Measured<'_>,
    suffix: &[u16],
    stops: F,
) -> usize
    requires { Asked (F.pre stops) }
    ensures { (result < depths)
        × ((test : Test) → Answers (F.post stops) test
        → result ≡ largest_of test (keywords_in set.entry.words.list.now) suffix.now) }
{
    for n in 1..set.cap {
        if some_stops(set.words, suffix, n, stops) {
            return n;
        }
    }
    set.cap
}
