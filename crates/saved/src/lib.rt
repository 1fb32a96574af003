// The saved table: numbers in groups of seven bits, shortest form only.
#![tactic(auto)]

mod read;
mod write;

ghost use Rattle.std.specs.Prelude.{◌≡◌};
ghost use Rattle.saved.specs.Save.{saved_of, buffer_of};
ghost use Rattle.saved.specs.Load.{load_of};

use files::Table;
use layout::Refusal;
use read::{read_files, read_number};
use write::{saved_length, write_table};

// The saved form of a table into a lent buffer, whose bytes beyond keep their values; answers its length.
pub fn save(t: Table, buffer: &mut [u8]) -> Result<u32, Refusal>
    ensures { (result ≡ saved_of t buffer.old) × (buffer.new ≡ buffer_of t buffer.old) }
{
    if files::valid_table(t) {
        let n = saved_length(t);
        if n as usize <= buffer.len() {
            write_table(buffer, t);
            return Ok(n);
        }
    }
    Err(Refusal::Invalid)
}

// The table that these bytes are the saved form of.
pub fn load(bytes: &[u8]) -> Result<Table, Refusal>
    ensures { result ≡ load_of bytes.now }
{
    let count = read_number(bytes, 0, Table::MOST).ok_or(Refusal::Damaged)?;
    read_files(bytes, count.next, count.value)
}
