// The small program: the forward scan of text.bin with set.bin, both in the working folder, printed.
#![tactic(auto)]

ghost use Rattle.std.specs.Prelude.{◌≤◌, length, IfSome};

use forward::scan;
use rules::{Totals, WORKSPACE};
use std::fs::File;
use std::io;
use std::io::Read;

// The most bytes of each file, and one more to tell a longer one.
const MOST: usize = 16384;

const ROOM: usize = 16385;

// Reads until the buffer is full, the file ends or a read fails; how many bytes stand at the buffer's front then.
fn fill(file: &mut File, buffer: &mut [u8]) -> usize
    ensures { result ≤ length buffer.new }
{
    let mut done = 0; // no range: how much a read gives is the file's to say
    while done < buffer.len() {
        let n = file.read(&mut buffer[done..]).unwrap_or(0);
        if n == 0 {
            break;
        }
        done += n;
    }
    done
}

// The bytes of a file, read into a buffer; none where the file is missing or longer than the most.
fn load<'a>(rt: &HostRuntime, path: &str, buffer: &'a mut [u8; ROOM]) -> Option<&'a [u8]>
    ensures { IfSome result (λ bytes. length bytes.now ≤ MOST) }
{
    let mut file = File::open(rt, path).ok()?;
    let size = fill(&mut file, buffer);
    if MOST < size {
        return None;
    }
    Some(&buffer[..size])
}

// The totals of a scan, and a line each for the hits that were listed: an end and a keyword's number.
fn print(rt: &HostRuntime, totals: Totals, hits: &[u32]) -> io::Result<()> {
    println!(rt;
        "count {} energy {} questions {}",
        totals.count, totals.energy, totals.questions
    )?;
    for hit in hits.chunks_exact(2).take(totals.count as usize) {
        println!(rt; "{} {}", hit[0], hit[1])?;
    }
    Ok(())
}

// What the scan of a text with a set answers: the totals and the hits, or the refusal.
fn answer(rt: &HostRuntime, set: &[u8], text: &[u8]) -> io::Result<()> {
    let mut workspace = [0u16; WORKSPACE];
    let mut hits = [0u32; 8192];
    match scan(set, text, &mut workspace, &mut hits) {
        Ok(totals) => print(rt, totals, &hits),
        Err(why) => println!(rt; "{why}"),
    }
}

// The two files, and what the scan of them answers.
fn main(rt: HostRuntime) -> io::Result<()> {
    let mut set_buffer = [0u8; ROOM];
    let mut text_buffer = [0u8; ROOM];
    let set = load(&rt, "set.bin", &mut set_buffer);
    let text = load(&rt, "text.bin", &mut text_buffer);
    match (set, text) {
        (Some(set), Some(text)) => answer(&rt, set, text),
        _ => println!(rt; "input"),
    }
}
