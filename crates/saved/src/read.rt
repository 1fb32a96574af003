// The numbers and files of a saved form, read one after the other.
ghost use Rattle.std.specs.Prelude.{◌≡◌, ◌≤◌, ◌<◌, drop};
ghost use Rattle.layout.specs.Numbers.{files_max};
ghost use Rattle.saved.specs.Load.{read_files, finish};
ghost use Rattle.saved.specs.inner.Steps.{Scaled, last_of, NumberPost, EntryPost};

use files::{Entry, Table};
use layout::{Geometry, Refusal};

// A number that was read, and the place after it.
#[derive(Clone, Copy, Debug, PartialEq, Eq)]
pub struct NumberRead {
    pub value: u32,
    pub next: usize,
}

// A byte as a number.
fn wide(b: u8) -> u64
    ensures { (result ≡ b) × (result < 256) }
{
    b as u64
}

// The last group `b` of a number whose groups before it are worth `value`; it counts `scale`-fold.
fn last_group(value: u64, scale: u64, b: u64, limit: u32, next: usize) -> Option<NumberRead>
    requires { Scaled value scale × (b < 128) }
    ensures { result ≡ last_of value scale b limit next }
{
    if 1 < scale && b == 0 {
        return None;
    }
    let whole = value + scale * b;
    if whole <= limit as u64 {
        return Some(NumberRead {
            value: whole as u32,
            next,
        });
    }
    None
}

// The number at place `at`, which is at most `limit`: a longer one is given up as soon as it is too large.
pub fn read_number(bytes: &[u8], at: usize, limit: u32) -> Option<NumberRead>
    ensures { NumberPost bytes.now at limit result }
{
    let mut value: u64 = 0;
    let mut scale: u64 = 1;
    for i in at..bytes.len() {
        let b = wide(bytes[i]);
        if b < 128 {
            return last_group(value, scale, b, limit, i + 1);
        }
        value += scale * (b - 128);
        scale *= 128;
        if (limit as u64) < scale {
            return None;
        }
    }
    None
}

// A file that was read, and the place after it.
#[derive(Clone, Copy, Debug, PartialEq, Eq)]
struct EntryRead {
    entry: Entry,
    next: usize,
}

// The file at place `at`, whose number is from `least` on.
fn read_entry(bytes: &[u8], at: usize, least: u32) -> Option<EntryRead>
    ensures { EntryPost bytes.now at least result }
{
    let number = read_number(bytes, at, Table::NUMBER_MAX)?;
    if number.value < least {
        return None;
    }
    let size = read_number(bytes, number.next, Geometry::FILE_MAX)?;
    if size.value == 0 {
        return Some(EntryRead {
            entry: Entry {
                number: number.value,
                size: 0,
                head: Geometry::NULL,
            },
            next: size.next,
        });
    }
    let head = read_number(bytes, size.next, Table::HEAD_MAX)?;
    Some(EntryRead {
        entry: Entry {
            number: number.value,
            size: size.value,
            head: head.value,
        },
        next: head.next,
    })
}

// The files from place `at` on, which end where the bytes do.
pub fn read_files(bytes: &[u8], at: usize, count: u32) -> Result<Table, Refusal>
    requires { count ≤ files_max }
    ensures { result ≡ finish (read_files count (drop at bytes.now) 0) }
{
    let mut t = Table::empty();
    let mut least: u32 = 0;
    let mut p = at;
    for i in 0..count as usize {
        let EntryRead { entry, next } = read_entry(bytes, p, least).ok_or(Refusal::Damaged)?;
        t.files[i] = entry;
        least = entry.number + 1;
        p = next;
    }
    if p < bytes.len() {
        return Err(Refusal::Damaged);
    }
    t.count = count;
    Ok(t)
}
