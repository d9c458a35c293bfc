// The limits of a set's tests, a line a case: the refusal, or what a set that passed has. The file `stdout` has the
// lines that document 01 asks for.
#![tactic(auto)]

ghost use Rattle.std.specs.Prelude.{◌*◌, ◌≤◌};

use rules::Way;
use sets::{RECORD, read_keywords};
use std::io;
use words::{Keywords, LIST, count_of, count_rows, item_at, shortest_of, unit};

// A record, and room for 66 of them.
type Record = [u8; RECORD];

type Records = [Record; 66];

// Where a record's energy begins.
const ENERGY: usize = 16;

// A record: a keyword of len bytes that rise by step from first, and the largest energy.
fn record(len: u8, first: u8, step: u8) -> Record {
    let mut record = [0; RECORD];
    record[0] = len;
    let mut b = first;
    for byte in record[1..ENERGY].iter_mut().take(usize::from(len)) {
        *byte = b;
        b = b.wrapping_add(step);
    }
    record[ENERGY..].fill(255);
    record
}

// Records of keywords whose lengths go on by grow from len and whose first bytes go on by rise from first.
fn family(len: u8, grow: u8, first: u8, rise: u8, step: u8) -> Records {
    let mut set = [[0; RECORD]; 66];
    let mut l = len;
    let mut b = first;
    for place in &mut set {
        *place = record(l, b, step);
        l = l.wrapping_add(grow);
        b = b.wrapping_add(rise);
    }
    set
}

// What a set that passed has: its keywords, its rows read forward and backward, its shortest keyword, and the energy,
// the first and the last byte of its first keyword.
fn passed(rt: &HostRuntime, words: Keywords<'_>) -> io::Result<()> {
    let count = count_of(words.list);
    let forward = count_rows(words, Way::Forward);
    let backward = count_rows(words, Way::Backward);
    print!(rt; ": keywords {count} rows {forward} {backward}")?;
    let shortest = shortest_of(words);
    let keyword = item_at(words.list, 0);
    print!(rt; " shortest {shortest} energy {}", keyword.energy)?;
    let first = unit(keyword.units, 0, Way::Forward);
    let last = unit(keyword.units, 0, Way::Backward);
    print!(rt; " from {first} to {last}")
}

// The answer of the tests.
fn answer(rt: &HostRuntime, set: &[u8]) -> io::Result<()> {
    let mut list = [0u16; LIST];
    match read_keywords(set, &mut list) {
        Ok(words) => passed(rt, words),
        Err(why) => print!(rt; ": {why}"),
    }
}

// A case: its name, and the answer to the first n bytes.
fn case(rt: &HostRuntime, name: &str, set: &Records, n: usize) -> io::Result<()> {
    print!(rt; "{name}")?;
    if let Some(bytes) = set.as_flattened().get(..n) {
        answer(rt, bytes)?;
    }
    println!(rt;)
}

// How many records, and bytes that are no whole record.
fn sizes(rt: &HostRuntime) -> io::Result<()> {
    let set = family(1, 0, 0, 1, 0);
    case(rt, "no bytes", &set, 0)?;
    case(rt, "19 bytes", &set, RECORD - 1)?;
    case(rt, "21 bytes", &set, RECORD + 1)?;
    case(rt, "1 record", &set, RECORD)?;
    case(rt, "1279 bytes", &set, 64 * RECORD - 1)?;
    case(rt, "64 records", &set, 64 * RECORD)?;
    case(rt, "1281 bytes", &set, 64 * RECORD + 1)?;
    case(rt, "65 records", &set, 65 * RECORD)?;
    case(rt, "65 records and a byte", &set, 65 * RECORD + 1)
}

// The lengths about the limits, in the first record and in the last.
fn lengths(rt: &HostRuntime) -> io::Result<()> {
    let longest = family(15, 0, 1, 0, 1);
    case(rt, "length 15", &longest, RECORD)?;
    let longer = family(16, 0, 1, 0, 1);
    case(rt, "length 16", &longer, RECORD)?;
    let far = family(255, 0, 1, 0, 1);
    case(rt, "length 255", &far, RECORD)?;
    let mut none = family(1, 0, 0, 1, 0);
    none[63][0] = 0;
    case(rt, "length 0 in record 63", &none, 64 * RECORD)?;
    none[0][0] = 0;
    case(rt, "length 0", &none, RECORD)
}

// The first and the last place behind a keyword, and what is no padding.
fn paddings(rt: &HostRuntime) -> io::Result<()> {
    let mut first = family(1, 0, 0, 1, 0);
    first[0][2] = 1;
    case(rt, "first padding byte", &first, RECORD)?;
    let mut last = family(1, 0, 0, 1, 0);
    last[63][15] = 255;
    case(rt, "last padding byte of record 63", &last, 64 * RECORD)?;
    last[0][15] = 1;
    case(rt, "last padding byte", &last, RECORD)?;
    let mut only = family(14, 0, 1, 0, 1);
    case(rt, "length 14", &only, RECORD)?;
    only[0][15] = 1;
    case(rt, "its padding byte", &only, RECORD)?;
    let mut figure = family(1, 0, 0, 1, 0);
    figure[0][ENERGY..].copy_from_slice(&[1, 2, 3, 4]);
    case(rt, "energy is no padding", &figure, RECORD)
}

// Zero is a byte of a keyword within its length.
fn zeros(rt: &HostRuntime) -> io::Result<()> {
    let set = family(1, 1, 0, 0, 0);
    case(rt, "0 and 0 0", &set, 2 * RECORD)?;
    case(rt, "up to 15 zeros", &set, 15 * RECORD)?;
    let mut other = family(1, 0, 7, 0, 0);
    other[1][0] = 2;
    case(rt, "7 and 7 0", &other, 2 * RECORD)
}

// A keyword that has come before, right behind it and far behind.
fn repeats(rt: &HostRuntime) -> io::Result<()> {
    let set = family(1, 0, 7, 0, 0);
    case(rt, "record 1 as record 0", &set, 2 * RECORD)?;
    let mut far = family(1, 0, 0, 1, 0);
    far[63][1] = 0;
    case(rt, "record 63 as record 0", &far, 64 * RECORD)?;
    far[63][1] = 62;
    far[63][19] = 0;
    case(
        rt,
        "record 63 as record 62, another energy",
        &far,
        64 * RECORD,
    )
}

// The first fault in the order of the table, and of the records.
fn several(rt: &HostRuntime) -> io::Result<()> {
    let mut empty = family(1, 0, 0, 1, 0);
    empty[0][0] = 0;
    case(rt, "length 0 in 19 bytes", &empty, RECORD - 1)?;
    case(rt, "length 0 in 65 records", &empty, 65 * RECORD)?;
    empty[0][15] = 1;
    case(rt, "length 0 and padding", &empty, RECORD)?;
    let mut padding = family(1, 0, 7, 0, 0);
    padding[1][9] = 1;
    case(rt, "padding and record 1 as record 0", &padding, 2 * RECORD)?;
    padding[1][0] = 16;
    padding[0][9] = 1;
    case(
        rt,
        "padding in record 0, length 16 in record 1",
        &padding,
        2 * RECORD,
    )?;
    let mut same = family(1, 0, 7, 0, 0);
    same[2][0] = 0;
    case(
        rt,
        "record 1 as record 0, length 0 in record 2",
        &same,
        3 * RECORD,
    )
}

// How many rows there are where keywords share nothing, a beginning or an end.
fn rows(rt: &HostRuntime) -> io::Result<()> {
    let most = family(15, 0, 0, 1, 1);
    case(rt, "64 of 15 bytes, nothing shared", &most, 64 * RECORD)?;
    let up = family(1, 1, 1, 0, 1);
    case(rt, "each begins the next", &up, 15 * RECORD)?;
    let down = family(15, 255, 1, 0, 1);
    case(rt, "each begins the one before", &down, 15 * RECORD)?;
    let behind = family(1, 1, 15, 255, 1);
    case(rt, "each ends the next", &behind, 15 * RECORD)?;
    let mut two = family(15, 0, 1, 0, 1);
    two[1][15] = 99;
    case(rt, "14 of 15 bytes shared", &two, 2 * RECORD)
}

// Document 01's set W: LM, ALM and LMLA.
fn bench(rt: &HostRuntime) -> io::Result<()> {
    let mut set = family(2, 1, 76, 0, 1);
    set[0][ENERGY..].copy_from_slice(&[40, 0, 0, 0]);
    set[1][1..4].copy_from_slice(b"ALM");
    set[2][3..5].copy_from_slice(b"LA");
    case(rt, "set W", &set, 3 * RECORD)
}

// All cases, a line each.
fn main(rt: HostRuntime) -> io::Result<()> {
    sizes(&rt)?;
    lengths(&rt)?;
    paddings(&rt)?;
    zeros(&rt)?;
    repeats(&rt)?;
    several(&rt)?;
    rows(&rt)?;
    bench(&rt)
}
