// The file table: which tables there are, and a file's place and size in one.
#![tactic(auto)]

pub mod change;
pub mod position;

ghost use Rattle.std.specs.Prelude.{◌≡◌, true, []};
ghost use Rattle.files.specs.Table.{held, table_of, entry_ok, table_ok, search_of, find_of, size_of};

use layout::{Geometry, Refusal};

// A file: its number, its size, and the last block of its list.
#[repr(C)]
#[derive(Clone, Copy, Debug, PartialEq, Eq)]
pub struct Entry {
    pub number: u32,
    pub size: u32,
    pub head: u32,
}

// The files of a store, numbers rising; slots past the count are not looked at.
#[repr(C)]
#[derive(Clone, Copy, Debug, PartialEq, Eq)]
pub struct Table {
    pub files: [Entry; Table::FILES],
    pub count: u32,
}

impl Table {
    // How many files a table holds, as a length and as a count.
    pub const FILES: usize = 32;

    pub const MOST: u32 = Table::FILES as u32;

    pub const NUMBER_MAX: u32 = 65535;

    pub const HEAD_MAX: u32 = 65535;

    // The table of no files.
    pub fn empty() -> Table
        ensures { result ≡ table_of [] }
    {
        Table {
            files: [Entry {
                number: 0,
                size: 0,
                head: 0,
            }; Table::FILES],
            count: 0,
        }
    }
}

// Whether a file can stand in a table, with a number from `least` on.
fn valid_entry(e: Entry, least: u32) -> bool
    ensures { result ≡ entry_ok least e }
{
    if e.number < least {
        return false;
    }
    if Table::NUMBER_MAX < e.number {
        return false;
    }
    if Geometry::FILE_MAX < e.size {
        return false;
    }
    if e.size == 0 {
        return e.head == Geometry::NULL;
    }
    e.head <= Table::HEAD_MAX
}

// Whether a value is a table.
pub fn valid_table(t: Table) -> bool
    ensures { result ≡ table_ok t }
{
    let count = t.count;
    if Table::MOST < count {
        return false;
    }
    let mut least: u32 = 0;
    for e in &t.files[..count as usize] {
        if !valid_entry(*e, least) {
            return false;
        }
        least = e.number + 1;
    }
    true
}

// The place of file `number` in a table that is valid.
fn search(t: Table, number: u32) -> Result<u32, Refusal>
    requires { table_ok t ≡ true }
    ensures { result ≡ search_of number (held t) 0 }
{
    for i in 0..t.count {
        if t.files[i as usize].number == number {
            return Ok(i);
        }
    }
    Err(Refusal::Missing)
}

// The place of file `number`.
pub fn find(t: Table, number: u32) -> Result<u32, Refusal>
    ensures { result ≡ find_of t number }
{
    if valid_table(t) {
        if number <= Table::NUMBER_MAX {
            return search(t, number);
        }
    }
    Err(Refusal::Invalid)
}

// The size of file `number`.
pub fn size(t: Table, number: u32) -> Result<u32, Refusal>
    ensures { result ≡ size_of t number }
{
    let i = find(t, number)?;
    Ok(t.files[i as usize].size)
}
