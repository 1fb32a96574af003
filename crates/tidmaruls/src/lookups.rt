// Positions of a block list: index of a position, and lookup.
ghost use Rattle.std.specs.Prelude.{◌≡◌};
ghost use Rattle.layout.specs.Layout.{place_of};
ghost use Rattle.card.specs.Card.{card_of};
ghost use Rattle.ctz.specs.Lookup.{lookup_of};
ghost use Rattle.told_lists.specs.Lists.{place_told, found_told};

use layout::Geometry;
use told_lists::{TidFind, TidIndex};

// Index and offset of a position in a list with blocks of `block_size` bytes.
#[unsafe(no_mangle)]
pub extern "C" fn tid_index(block_size: u32, pos: u32) -> TidIndex
    ensures { result ≡ place_told (place_of block_size pos) }
{
    TidIndex::from(layout::ctz_index(block_size, pos))
}

// Block, offset and hops of a position of the list (head, size).
#[unsafe(no_mangle)]
pub extern "C" fn tid_find(g: Geometry, image: &[u8], head: u32, size: u32, pos: u32) -> TidFind
    ensures { result ≡ found_told (lookup_of (card_of g image.now) (record { head = head; size = size }) pos) }
{
    TidFind::from(ctz::ctz_find(g, image, head, size, pos))
}
