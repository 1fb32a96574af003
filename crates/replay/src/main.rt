// Replays a fixed list of the oracle's answers: each record is asked of the proved function and held to the oracle's answer.
//
// From byte 0 on the list has the place of the records of each kind, from byte 32 on their number; docs/DIFFERENCES.md says how it was made.
#![tactic(auto)]

mod blocks;
mod lists;
mod seeks;

ghost use Rattle.std.specs.Prelude.{◌≤◌, length, IfOk};

use std::fs::File;
use std::io::Read;
use std::{fmt, io};

// The kinds of record, as the list numbers them.
#[derive(Clone, Copy, Debug, PartialEq, Eq)]
enum Kind {
    Index,
    Find,
    Visit,
    Alloc,
    Extend,
    Image,
    Seek,
}

impl Kind {
    const ALL: [Kind; 7] = [
        Kind::Index,
        Kind::Find,
        Kind::Visit,
        Kind::Alloc,
        Kind::Extend,
        Kind::Image,
        Kind::Seek,
    ];

    // How many bytes a record of this kind has.
    fn width(self) -> usize {
        match self {
            Kind::Index => 24,
            Kind::Alloc => 28,
            Kind::Find | Kind::Visit | Kind::Seek => 32,
            Kind::Extend | Kind::Image => 40,
        }
    }

    // Whether the record of this kind at this place is answered as the oracle did.
    fn is_equal(self, list: &[u8], at: usize) -> bool {
        match self {
            Kind::Index => lists::index(list, at),
            Kind::Find => lists::find(list, at),
            Kind::Visit => lists::visit(list, at),
            Kind::Alloc => blocks::alloc(list, at),
            Kind::Extend => blocks::extend(list, at),
            Kind::Image => blocks::extended_image(list, at),
            Kind::Seek => seeks::seek(list, at),
        }
    }
}

impl fmt::Display for Kind {
    fn fmt<W: fmt::Write>(&self, f: &mut fmt::Formatter<W>) -> fmt::Result {
        f.write_str(match self {
            Kind::Index => "index",
            Kind::Find => "find",
            Kind::Visit => "visit",
            Kind::Alloc => "alloc",
            Kind::Extend => "extend",
            Kind::Image => "image",
            Kind::Seek => "seek",
        })
    }
}

// The first record that differs, or that the list does not hold: how many before it are equal, and where it stands.
#[derive(Clone, Copy, Debug, PartialEq, Eq)]
struct Difference {
    equal: u32,
    at: usize,
}

// Asks the records of one kind, and answers how many they are, all equal.
fn run(list: &[u8], kind: Kind) -> Result<u32, Difference> {
    let count = records::word(list, 32, kind as u32);
    let width = kind.width();
    let mut at = records::place(list, 0, kind as u32);
    for equal in 0..count {
        if list.len() < at || list.len() - at < width || !kind.is_equal(list, at) {
            return Err(Difference { equal, at });
        }
        at += width;
    }
    Ok(count)
}

// Writes a line for each kind: how many records are equal, and where the first that differs stands.
fn replay(rt: &impl Print, list: &[u8]) -> io::Result<()> {
    for kind in Kind::ALL {
        match run(list, kind) {
            Ok(count) => println!(rt; "{kind} {count} equal")?,
            Err(Difference { equal, at }) => {
                println!(rt; "{kind} {equal} equal, and the record at byte {at} differs")?
            }
        }
    }
    Ok(())
}

// Room for the list; of a longer one the last records are missing.
fn room() -> [u8; 262144] {
    [0; 262144]
}

// The file's bytes from here on, as many as there is room for; answers how many.
fn read_full(file: &mut File, bytes: &mut [u8]) -> io::Result<usize>
    ensures { IfOk result (λ n. n ≤ length bytes.new) }
{
    // By hand: `read_to_end` fills a `Vec`, and nothing here is on the heap; `read_exact` refuses a list that is shorter than the room.
    let mut n: usize = 0;
    while n < bytes.len() {
        let more = file.read(&mut bytes[n..])?;
        if more == 0 {
            break;
        }
        n += more;
    }
    Ok(n)
}

fn main(rt: HostRuntime) -> io::Result<()> {
    let mut file = File::open(&rt, "answers")?;
    let mut bytes = room();
    let length = read_full(&mut file, &mut bytes)?;
    replay(&rt, &bytes[..length])
}
