// The store: write and truncate.
#![tactic(auto)]

mod file;
mod steps;

ghost use Rattle.store.specs.Store.{store_write, store_truncate};
ghost use Rattle.store.specs.inner.Gives.{StoreGives};

use file::{truncate_file, write_file};
use files::Table;
use grow::valid_setting;
use layout::{Geometry, Refusal};
use steps::left;
use window::Lookahead;

// The answer, with the window and the table after the call.
#[derive(Clone, Copy)]
pub struct Stored {
    pub answer: Result<(), Refusal>,
    pub window: Lookahead,
    pub table: Table,
}

// `data` written to file `number` from position `pos` on; a gap before it is zeros, and the table changes last.
pub fn write(
    g: Geometry,
    l: u32,
    image: &mut [u8],
    health: &[u8],
    w: Lookahead,
    t: Table,
    number: u32,
    pos: u32,
    data: &[u8],
) -> Stored
    ensures { StoreGives
        (store_write
        (record { B = g.block_size; N = g.block_count; L = l; health = health.now })
        (record { window = w; table = t; image = image.old })
        (record { number = number; position = pos; bytes = «data».now }))
        result image.new }
{
    if !valid_setting(g, l, image.len(), health, w) {
        return left(Err(Refusal::Invalid), w, t);
    }
    match files::find(t, number) {
        Ok(i) => write_file(
            g.block_size,
            g.block_count,
            l,
            image,
            health,
            w,
            t,
            i,
            pos,
            data,
        ),
        Err(refusal) => left(Err(refusal), w, t),
    }
}

// File `number` cut down to `size` bytes, or grown to it with zeros.
pub fn truncate(
    g: Geometry,
    l: u32,
    image: &mut [u8],
    health: &[u8],
    w: Lookahead,
    t: Table,
    number: u32,
    size: u32,
) -> Stored
    ensures { StoreGives
        (store_truncate
        (record { B = g.block_size; N = g.block_count; L = l; health = health.now })
        (record { window = w; table = t; image = image.old })
        (record { number = number; size = size }))
        result image.new }
{
    if !valid_setting(g, l, image.len(), health, w) {
        return left(Err(Refusal::Invalid), w, t);
    }
    match files::find(t, number) {
        Ok(i) => truncate_file(g.block_size, g.block_count, l, image, health, w, t, i, size),
        Err(refusal) => left(Err(refusal), w, t),
    }
}
