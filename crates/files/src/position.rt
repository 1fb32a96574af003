// Positions in a file: where a seek leads.
ghost use Rattle.std.specs.Prelude.{◌≡◌, pos, ◌+ℤ◌};
ghost use Rattle.files.specs.Seek.{within_of, seek_of};

use crate::{Table, find};
use layout::{Geometry, Refusal};

// A signed offset added to an unsigned base, exact below zero and at the largest size.
fn moved(base: u32, offset: i32) -> Result<u32, Refusal>
    ensures { result ≡ within_of (pos base +ℤ offset) }
{
    let sum = base as i64 + offset as i64;
    if sum < 0 {
        return Err(Refusal::Invalid);
    }
    if (Geometry::FILE_MAX as i64) < sum {
        return Err(Refusal::Invalid);
    }
    Ok(sum as u32)
}

// The position that `offset` leads to, from 0, from the held position or from the size of file `number`.
pub fn seek(t: Table, number: u32, position: u32, offset: i32, whence: i32) -> Result<u32, Refusal>
    ensures { result ≡ seek_of t (record { number = number; position = position; offset = offset; whence = whence }) }
{
    let i = find(t, number)?;
    if Geometry::FILE_MAX < position {
        return Err(Refusal::Invalid);
    }
    let end = t.files[i as usize].size;
    match whence {
        0 => moved(0, offset),
        1 => moved(position, offset),
        2 => moved(end, offset),
        _ => Ok(position),
    }
}
