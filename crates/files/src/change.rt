// The calls that change a table: create, remove, and another size and head of a file.
ghost use Rattle.std.specs.Prelude.{◌≡◌, true, ◌∷◌, ◌++◌, ◌+◌, ◌≤◌, ◌<◌, take, drop};
ghost use Rattle.std.proofs.Math.Seq.{slice};
ghost use Rattle.layout.specs.Numbers.{files_max};
ghost use Rattle.files.specs.Table.{held, table_of, table_ok};
ghost use Rattle.files.specs.Change.{empty_file, create_of, remove_of, with_list};
ghost use Rattle.files.specs.inner.Facts.{append_of, slot_for, AppendRoom};

use crate::{Entry, Table, find};
use layout::{Geometry, Refusal};

// What became of a table, and the table; on a refusal as it came.
#[derive(Clone, Copy, Debug, PartialEq, Eq)]
pub struct Changed {
    pub answer: Result<(), Refusal>,
    pub table: Table,
}

// How many files stand before file `number`.
fn place(t: Table, number: u32) -> u32
    requires { table_ok t ≡ true }
    ensures { result ≡ slot_for number (held t) }
{
    for i in 0..t.count {
        if number <= t.files[i as usize].number {
            return i;
        }
    }
    t.count
}

// `u` with the files of `t` from place `from` to place `to` at its end.
fn append(mut u: Table, t: Table, from: u32, to: u32) -> Table
    requires { AppendRoom u t from to }
    ensures { result ≡ append_of u (slice from to t.files) }
{
    let start = u.count;
    let end = start + (to - from);
    u.files[start as usize..end as usize].copy_from_slice(&t.files[from as usize..to as usize]);
    u.count = end;
    u
}

// The table `t` with an empty file `number` at place `at`.
fn with_file(t: Table, number: u32, at: u32) -> Table
    requires { (table_ok t ≡ true) × (at ≤ t.count) × (t.count < files_max) }
    ensures { result ≡ table_of (take at (held t) ++ (empty_file number ∷ drop at (held t))) }
{
    let mut u = append(Table::empty(), t, 0, at);
    u.files[at as usize] = Entry {
        number,
        size: 0,
        head: Geometry::NULL,
    };
    u.count = at + 1;
    append(u, t, at, t.count)
}

// The table with an empty file `number`.
pub fn create(t: Table, number: u32) -> Changed
    ensures { result ≡ create_of t number }
{
    let refusal = match find(t, number) {
        Ok(_) => Refusal::Exists,
        Err(Refusal::Missing) => {
            if t.count < Table::MOST {
                return Changed {
                    answer: Ok(()),
                    table: with_file(t, number, place(t, number)),
                };
            }
            Refusal::TableFull
        }
        Err(refusal) => refusal,
    };
    Changed {
        answer: Err(refusal),
        table: t,
    }
}

// The table without the file at place `at`.
fn without_file(t: Table, at: u32) -> Table
    requires { (table_ok t ≡ true) × (at < t.count) }
    ensures { result ≡ table_of (take at (held t) ++ drop (at + 1) (held t)) }
{
    append(append(Table::empty(), t, 0, at), t, at + 1, t.count)
}

// The table without file `number`.
pub fn remove(t: Table, number: u32) -> Changed
    ensures { result ≡ remove_of t number }
{
    match find(t, number) {
        Ok(i) => Changed {
            answer: Ok(()),
            table: without_file(t, i),
        },
        Err(refusal) => Changed {
            answer: Err(refusal),
            table: t,
        },
    }
}

// The table with another size and head of the file at place `i`.
pub fn put(mut t: Table, i: u32, size: u32, head: u32) -> Table
    requires { i < files_max }
    ensures { result ≡ with_list t i (record { head = head; size = size }) }
{
    let number = t.files[i as usize].number;
    t.files[i as usize] = Entry { number, size, head };
    t
}
