// The old list of a file: lookups of its blocks before a write.
#![tactic(auto)]

ghost use Rattle.std.specs.Prelude.{◌≡◌, ◌-◌, ◌≤◌, ◌<◌, length};
ghost use Rattle.layout.specs.Layout.{index_at, start};
ghost use Rattle.layout.specs.Numbers.{size_max};
ghost use Rattle.layout.specs.inner.Served.{Served};
ghost use Rattle.ctz.specs.inner.Bounds.{ListFacts};
ghost use Rattle.old_list.specs.Write.{looked};
ghost use Rattle.old_list.specs.inner.Lookups.{looked_of, found_all, kept_of, tail_wanted, Behind, look_in};

use card::Card;
use files::Entry;
use layout::{Geometry, Refusal};

// The first position of the block that holds position `p`.
fn block_start(b: u32, p: u32) -> u32
    requires { Served b p }
    ensures { result ≡ start b (index_at b p) }
{
    let index = layout::index_at(b, p);
    p - (layout::offset_at(b, p, index) - 4 * layout::pointer_count(index))
}

// The block of a position of a file: the head, at its last byte.
pub fn look(b: u32, n: u32, image: &[u8], e: Entry, p: u32) -> Result<u32, Refusal>
    requires { ListFacts b n e.size (length image.now) × (p < e.size) }
    ensures { result ≡ looked_of (look_in b n e image.now p) }
{
    if p + 1 == e.size {
        if e.head < n {
            return Ok(e.head);
        }
        return Err(Refusal::Damaged);
    }
    let card = Card {
        block_size: b,
        block_count: n,
        image,
    };
    let found = ctz::find_in(card, e.head, e.size, p)?;
    Ok(found.block)
}

// The block before that of byte q - 1, which starts at `first`: one pointer of the head, where q is the size.
fn look_before(b: u32, n: u32, image: &[u8], e: Entry, q: u32, first: u32) -> Result<u32, Refusal>
    requires { ListFacts b n e.size (length image.now) × (q ≤ e.size) × Behind b q first }
    ensures { result ≡ looked_of (look_in b n e image.now (first - 1)) }
{
    if q == e.size {
        if n <= e.head {
            return Err(Refusal::Damaged);
        }
        let card = Card {
            block_size: b,
            block_count: n,
            image,
        };
        let block = card.pointer(e.head, 0);
        if n <= block {
            return Err(Refusal::Damaged);
        }
        return Ok(block);
    }
    look(b, n, image, e, first - 1)
}

// The block from which the first growth goes, that of byte q - 1, once the last kept block and the one that is copied are found.
pub fn first_head(b: u32, n: u32, image: &[u8], e: Entry, q: u32) -> Result<u32, Refusal>
    requires { ListFacts b n e.size (length image.now) × (q ≤ e.size) }
    ensures { result ≡ looked_of (kept_of (look_in b n e) b image.now q) }
{
    if q == 0 {
        return Ok(Geometry::NULL);
    }
    let first = block_start(b, q);
    if 0 < first && first < q {
        look_before(b, n, image, e, q, first)?;
    }
    look(b, n, image, e, q - 1)
}

// Each block of a file from position `from` to its end is found, or it is refused.
pub fn tail_looked(b: u32, n: u32, image: &[u8], e: Entry, from: u32) -> Result<(), Refusal>
    requires { ListFacts b n e.size (length image.now) × (from ≤ size_max) }
    ensures { result ≡ found_all (looked (look_in b n e image.now) (tail_wanted b from e.size)) }
{
    let mut p = from;
    while p < e.size {
        look(b, n, image, e, p)?;
        let index = layout::index_at(b, p);
        p += b - layout::offset_at(b, p, index);
    }
    Ok(())
}
