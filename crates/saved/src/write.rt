// The saved form of a table: its length, and its bytes stored in a buffer.
ghost use Rattle.std.specs.Prelude.{◌≡◌, true, ◌+◌, ◌≤◌, length};
ghost use Rattle.std.proofs.lemmas.List.Edits.{sets};
ghost use Rattle.files.specs.Table.{table_ok};
ghost use Rattle.saved.specs.Save.{entry_bytes, save_of, groups};
ghost use Rattle.saved.specs.inner.Steps.{Counted};

use files::{Entry, Table};

// How many groups a number has.
fn number_length(n: u32) -> u32
    ensures { Counted (groups n) 5 result }
{
    // The loop ends by what is left of the number, so no range counts its groups.
    let mut m = n;
    let mut k: u32 = 1;
    while 128 <= m {
        m /= 128;
        k += 1;
    }
    k
}

// How many bytes a file has in the saved form.
fn entry_length(e: Entry) -> u32
    ensures { Counted (entry_bytes e) 15 result }
{
    let start = number_length(e.number) + number_length(e.size);
    if 0 < e.size {
        return start + number_length(e.head);
    }
    start
}

// How many bytes a table has in the saved form.
pub fn saved_length(t: Table) -> u32
    requires { table_ok t ≡ true }
    ensures { result ≡ length (save_of t) }
{
    let mut n = number_length(t.count);
    for e in &t.files[..t.count as usize] {
        n += entry_length(*e);
    }
    n
}

// The groups of `n` stored from place `at` on; answers the place after them.
fn write_number(buffer: &mut [u8], at: usize, n: u32) -> usize
    requires { at + length (groups n) ≤ length buffer.old }
    ensures { (result ≡ at + length (groups n)) × (buffer.new ≡ sets buffer.old at (groups n)) }
{
    // The loop ends by what is left of the number, so no range counts its groups.
    let mut m = n;
    let mut i = at;
    while 128 <= m {
        buffer[i] = (128 + m % 128) as u8;
        m /= 128;
        i += 1;
    }
    buffer[i] = m as u8;
    i + 1
}

// A file stored from place `at` on.
fn write_entry(buffer: &mut [u8], at: usize, e: Entry) -> usize
    requires { at + length (entry_bytes e) ≤ length buffer.old }
    ensures { (result ≡ at + length (entry_bytes e)) × (buffer.new ≡ sets buffer.old at (entry_bytes e)) }
{
    let after = write_number(buffer, at, e.number);
    let end = write_number(buffer, after, e.size);
    if e.size == 0 {
        return end;
    }
    write_number(buffer, end, e.head)
}

// A table stored from the start of the buffer on.
pub fn write_table(buffer: &mut [u8], t: Table)
    requires { (table_ok t ≡ true) × (length (save_of t) ≤ length buffer.old) }
    ensures { buffer.new ≡ sets buffer.old 0 (save_of t) }
{
    let mut at = write_number(buffer, 0, t.count);
    for e in &t.files[..t.count as usize] {
        at = write_entry(buffer, at, *e);
    }
}
