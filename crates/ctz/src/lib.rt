// Block lists: lookup of a position, and the visit of a list's blocks.
#![tactic(auto)]

pub mod run;
pub mod visit;

ghost use Rattle.std.specs.Prelude.{◌≡◌, suc, ◌^◌, ◌≤◌, ◌<◌};
ghost use Rattle.layout.specs.inner.Served.{block_list};
ghost use Rattle.hops.specs.Walk.{jump};
ghost use Rattle.hops.specs.inner.Ways.{way};
ghost use Rattle.card.specs.Card.{card_of, pointer};
ghost use Rattle.card.specs.inner.Cards.{card_with};
ghost use Rattle.ctz.specs.Lookup.{walk, walk_to, lookup_of};
ghost use Rattle.ctz.specs.inner.Forms.{pointers_with, target, stand};
ghost use Rattle.ctz.specs.inner.Bounds.{Walks, LookupAsked};

use card::Card;
use layout::{Geometry, Refusal};

// Where a position lies: its block, the offset in it, and how many pointers were followed to it.
#[derive(Clone, Copy, Debug, PartialEq, Eq)]
pub struct Found {
    pub block: u32,
    pub offset: u32,
    pub hops: u32,
}

// Which pointer a hop takes: the longest that the block has and that does not lead past the target.
fn skip(cur: u32, tgt: u32) -> u32
    requires { tgt < cur }
    ensures { result ≡ jump (way cur tgt) }
{
    let log = 31 - u32::leading_zeros(cur - tgt);
    let zeros = u32::trailing_zeros(cur);
    if log <= zeros { log } else { zeros }
}

// How many indexes pointer x leads down: two to the power x.
pub fn power(x: u32) -> u32
    requires { x ≤ 31 }
    ensures { result ≡ 2 ^ x }
{
    1 << x
}

// The walk from index top, whose block is head, to index tgt, with the offset that it is to answer. -84 at a number not below the block count.
#[tactic(auto, using(crate::proofs::Walked::walk_damaged))]
fn walk_to(card: Card<'_>, offset: u32, tgt: u32, top: u32, head: u32) -> Result<Found, Refusal>
    requires { Walks card.block_size top }
    ensures { result ≡ walk (suc top) (pointers_with card.entry.block_count (pointer card.entry.block_size card.entry.image.now)) (target tgt offset) (stand top head 0) }
{
    let mut cur = top;
    let mut block = head;
    let mut hops: u32 = 0;
    'hop: loop {
        if card.block_count <= block {
            return Err(Refusal::Damaged);
        }
        if cur <= tgt {
            return Ok(Found {
                block,
                offset,
                hops,
            });
        }
        let x = skip(cur, tgt);
        block = card.pointer(block, x);
        cur -= power(x);
        hops += 1;
    }
}

// The lookup of a position below the size, on a card: for callers that have tested all that.
pub fn find_in(card: Card<'_>, head: u32, size: u32, pos: u32) -> Result<Found, Refusal>
    requires { LookupAsked size pos }
    ensures { result ≡ walk_to (card_with card.entry.block_size card.entry.block_count card.entry.image.now) (block_list head size) pos }
{
    let top = layout::index_at(card.block_size, size - 1);
    let tgt = layout::index_at(card.block_size, pos);
    let offset = layout::offset_at(card.block_size, pos, tgt);
    walk_to(card, offset, tgt, top, head)
}

// The lookup of a position: its block, offset and hops; the null block where the list is empty, refused at or past the size.
#[tactic(auto, using(std::proofs::lemmas::Bool::Decides::nat_tests), unfolding(crate::specs::Lookup::lookup_of))]
pub fn ctz_find(g: Geometry, image: &[u8], head: u32, size: u32, pos: u32) -> Result<Found, Refusal>
    ensures { result ≡ lookup_of (card_of g image.now) (record { head = head; size = size }) pos }
{
    let card = Card::new(g, image)?;
    if Geometry::FILE_MAX < size {
        return Err(Refusal::Invalid);
    }
    if size == 0 {
        return Ok(Found {
            block: Geometry::NULL,
            offset: 0,
            hops: 0,
        });
    }
    if size <= pos {
        return Err(Refusal::Invalid);
    }
    find_in(card, head, size, pos)
}
