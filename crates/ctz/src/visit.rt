// The visit of a list: the numbers of its blocks, last index first, a step at a time.
ghost use Rattle.std.specs.Prelude.{◌≡◌};
ghost use Rattle.card.specs.Card.{card_of, pointer};
ghost use Rattle.ctz.specs.Visits.{begin_of, step_of, traverse_of};
ghost use Rattle.ctz.specs.inner.Forms.{pointers_with};

use card::Card;
use layout::{Geometry, Refusal};

// The index to hand over next and its block number; and the number of the index below it, where that was read already.
#[derive(Clone, Copy, Debug, PartialEq, Eq)]
pub struct Visit {
    pub index: u32,
    pub block: u32,
    pub after: Option<u32>,
}

// One step: the number handed over, and the visit that goes on behind it.
#[derive(Clone, Copy, Debug, PartialEq, Eq)]
pub struct Step {
    pub block: u32,
    pub next: Option<Visit>,
}

// The visit of a list at its last index; an empty list has no block, and a size above the largest is refused.
#[tactic(auto, using(std::proofs::lemmas::Bool::Decides::nat_tests), unfolding(crate::specs::Visits::begin_of))]
pub fn ctz_visit(g: Geometry, head: u32, size: u32) -> Result<Option<Visit>, Refusal>
    ensures { result ≡ begin_of g (record { head = head; size = size }) }
{
    Geometry::new(g.block_size, g.block_count)?;
    if Geometry::FILE_MAX < size {
        return Err(Refusal::Invalid);
    }
    if size == 0 {
        return Ok(None);
    }
    Ok(Some(Visit {
        index: layout::index_at(g.block_size, size - 1),
        block: head,
        after: None,
    }))
}

// One step on a card. An odd index reads one pointer; an even one above 0 reads two, and the second is held for the index below.
#[tactic(auto, using(std::proofs::lemmas::Bool::Decides::nat_tests), unfolding(crate::specs::Visits::step_of))]
pub fn visit_step(card: Card<'_>, v: Visit) -> Result<Step, Refusal>
    ensures { result ≡ step_of (pointers_with card.entry.block_count (pointer card.entry.block_size card.entry.image.now)) v }
{
    let k = v.block;
    if card.block_count <= k {
        return Err(Refusal::Damaged);
    }
    let i = v.index;
    if i == 0 {
        return Ok(Step {
            block: k,
            next: None,
        });
    }
    let (block, after) = match v.after {
        Some(held) => (held, None),
        None if i % 2 == 1 => (card.pointer(k, 0), None),
        None => (card.pointer(k, 0), Some(card.pointer(k, 1))),
    };
    Ok(Step {
        block: k,
        next: Some(Visit {
            index: i - 1,
            block,
            after,
        }),
    })
}

// One step, on an image that is a card or else refused.
#[tactic(auto, unfolding(crate::specs::Visits::traverse_of))]
pub fn ctz_traverse(g: Geometry, image: &[u8], v: Visit) -> Result<Step, Refusal>
    ensures { result ≡ traverse_of (card_of g image.now) v }
{
    visit_step(Card::new(g, image)?, v)
}
