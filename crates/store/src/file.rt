// A write or truncate of one file, behind the tests of card, window and table.
ghost use Rattle.store.specs.inner.Store.{write_file, truncate_file};
ghost use Rattle.store.specs.inner.Gives.{StoreGives};
ghost use Rattle.store.specs.inner.Calls.{CallAsked};

use super::Stored;
use super::steps::{finish, left, shrink};
use files::Table;
use layout::{Geometry, Refusal};
use new_list::put;
use window::Lookahead;

// `data` written to the file at place `i` from position `pos` on; no bytes change nothing.
pub fn write_file(
    b: u32,
    n: u32,
    l: u32,
    image: &mut [u8],
    health: &[u8],
    w: Lookahead,
    t: Table,
    i: u32,
    pos: u32,
    data: &[u8],
) -> Stored
    requires { CallAsked b n l image.old health.now w t i }
    ensures { StoreGives
        (write_file b n l image.old health.now w t i pos «data».now)
        result image.new }
{
    if Geometry::FILE_MAX < pos {
        return left(Err(Refusal::Invalid), w, t);
    }
    if ((Geometry::FILE_MAX - pos) as usize) < data.len() {
        return left(Err(Refusal::TooLarge), w, t);
    }
    if data.len() == 0 {
        return left(Ok(()), w, t);
    }
    let e = t.files[i as usize];
    let wrote = put(b, n, l, image, health, t, w, e, pos, data);
    finish(t, i, wrote)
}

// The file at place `i` cut down to `size` bytes, or grown to it by a gap.
pub fn truncate_file(
    b: u32,
    n: u32,
    l: u32,
    image: &mut [u8],
    health: &[u8],
    w: Lookahead,
    t: Table,
    i: u32,
    size: u32,
) -> Stored
    requires { CallAsked b n l image.old health.now w t i }
    ensures { StoreGives
        (truncate_file b n l image.old health.now w t i size)
        result image.new }
{
    if Geometry::FILE_MAX < size {
        return left(Err(Refusal::Invalid), w, t);
    }
    let e = t.files[i as usize];
    let old = e.size;
    if size < old {
        return shrink(b, n, &image[..], w, t, i, size);
    }
    if size == old {
        return left(Ok(()), w, t);
    }
    let wrote = put(b, n, l, image, health, t, w, e, size, &health[0..0]);
    finish(t, i, wrote)
}
