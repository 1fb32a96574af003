// What write and truncate do around the growths: the table last, and a file cut down.
ghost use Rattle.std.specs.Prelude.{◌≡◌, ◌<◌, length};
ghost use Rattle.layout.specs.Numbers.{files_max};
ghost use Rattle.store.specs.Store.{stored_of};
ghost use Rattle.store.specs.inner.Calls.{Shrinking, finish_of};
ghost use Rattle.store.specs.inner.Store.{stays, shrinks};

use super::Stored;
use card::Card;
use files::Table;
use layout::{BlockList, Geometry, Refusal};
use window::{Lookahead, Windowed};

// An answer, with window and table as they are.
pub fn left(answer: Result<(), Refusal>, window: Lookahead, table: Table) -> Stored
    ensures { result ≡ stays answer window table }
{
    Stored {
        answer,
        window,
        table,
    }
}

// The table changes last, and only for a write that came to its end.
pub fn finish(t: Table, i: u32, wrote: Windowed<Result<BlockList, Refusal>>) -> Stored
    requires { i < files_max }
    ensures { result ≡ finish_of t i wrote.answer wrote.window }
{
    let window = wrote.window;
    match wrote.answer {
        Ok(list) => Stored {
            answer: Ok(()),
            window,
            table: files::change::put(t, i, list.size, list.head),
        },
        Err(refusal) => left(Err(refusal), window, t),
    }
}

// The file at place `i` cut down to `size` bytes: its head is then the block of its last byte.
pub fn shrink(b: u32, n: u32, image: &[u8], w: Lookahead, t: Table, i: u32, size: u32) -> Stored
    requires { Shrinking b n (length image.now) t i size }
    ensures { result ≡ stored_of (shrinks b n image.now w t i size) }
{
    if size == 0 {
        return Stored {
            answer: Ok(()),
            window: w,
            table: files::change::put(t, i, 0, Geometry::NULL),
        };
    }
    let e = t.files[i as usize];
    let card = Card {
        block_size: b,
        block_count: n,
        image,
    };
    match ctz::find_in(card, e.head, e.size, size - 1) {
        Ok(found) => Stored {
            answer: Ok(()),
            window: w,
            table: files::change::put(t, i, size, found.block),
        },
        Err(_) => left(Err(Refusal::Damaged), w, t),
    }
}
