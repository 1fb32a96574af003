// The list of answers, read in small steps. Past its end a word is 0 and a part is empty, so nothing is asked of the file.
#![tactic(auto)]

pub mod agree;

ghost use Rattle.std.specs.Prelude.{◌≡◌};
ghost use Rattle.records.specs.Records.{word_of, bytes_at, geometry_of, image_of, signed_of, map_of, window_of, table_at};

use files::{Entry, Table};
use layout::Geometry;
use window::Lookahead;

// Word `k`, low byte first, of what stands at byte `at`.
pub fn word(list: &[u8], at: usize, k: u32) -> u32
    ensures { result ≡ word_of list.now at k }
{
    let from = 4 * k as usize;
    if list.len() < at {
        return 0;
    }
    if list.len() - at < from + 4 {
        return 0;
    }
    span::word(list, at + from)
}

// The place in the list that a word names.
pub fn place(list: &[u8], at: usize, k: u32) -> usize
    ensures { result ≡ word_of list.now at k }
{
    word(list, at, k) as usize
}

// The `length` bytes from `at` on.
pub fn part<'a>(list: &'a [u8], at: usize, length: usize) -> &'a [u8]
    ensures { result.now ≡ bytes_at list.now at length }
{
    if list.len() < at {
        return &list[0..0];
    }
    if list.len() - at < length {
        return &list[0..0];
    }
    &list[at..at + length]
}

// The geometry of a card: its first two words.
pub fn geometry(list: &[u8], card: usize) -> Geometry
    ensures { result ≡ geometry_of list.now card }
{
    Geometry {
        block_size: word(list, card, 0),
        block_count: word(list, card, 1),
    }
}

// The image of a card: the place and the length of its bytes.
pub fn image<'a>(list: &'a [u8], card: usize) -> &'a [u8]
    ensures { result.now ≡ image_of list.now card }
{
    part(list, place(list, card, 3), place(list, card, 4))
}

// A word as a signed number.
pub fn signed(x: u32) -> i32
    ensures { result ≡ signed_of x }
{
    x.cast_signed()
}

// The map of a window: 64 bytes from `at` on.
fn map(list: &[u8], at: usize) -> [u8; 64]
    ensures { result ≡ map_of list.now at }
{
    let mut bytes = [0u8; 64];
    let found = part(list, at, 64);
    if found.len() == 64 {
        span::copy(&mut bytes, 0, found, 0, 64);
    }
    bytes
}

// The window at `at`: start, next, size, checkpoint count, and the place of its map.
pub fn window(list: &[u8], at: usize) -> Lookahead
    ensures { result ≡ window_of list.now at }
{
    let bytes = map(list, place(list, at, 4));
    Lookahead {
        map: bytes,
        start: word(list, at, 0),
        next: word(list, at, 1),
        size: word(list, at, 2),
        ckpoint: word(list, at, 3),
    }
}

// The table at `at`: how many files, and the size and head of each; their numbers rise from 0.
pub fn table(list: &[u8], at: usize) -> Table
    ensures { result ≡ table_at list.now at }
{
    let mut t = Table::empty();
    let count = word(list, at, 0);
    if Table::MOST < count {
        return t;
    }
    for i in 0..count {
        t.files[i as usize] = Entry {
            number: i,
            size: word(list, at, 2 * i + 1),
            head: word(list, at, 2 * i + 2),
        };
    }
    t.count = count;
    t
}
