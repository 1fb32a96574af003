// Records on block lists: index, lookup and visit, asked of the proved functions and held to the answers that the records have.
//
// The first four words of a record are the answer: 0 or the refusal without its sign, and up to three values. The question follows.
ghost use Rattle.std.specs.Prelude.{◌≡◌};
ghost use Rattle.replay.specs.Lists.{index_equal, find_equal, visited_of, visit_equal};

use ctz::visit::Visit;
use records::agree::{bare, told};
use records::{geometry, image, place, word};
use told_lists::{TidFind, TidIndex};

// Index and offset of a position.
#[tactic(auto, using(records::proofs::Bare::bare_is), unfolding(crate::specs::Lists::index_equal))]
pub fn index(list: &[u8], at: usize) -> bool
    ensures { result ≡ index_equal list.now at }
{
    let a = TidIndex::from(layout::ctz_index(word(list, at, 4), word(list, at, 5)));
    told(list, at, bare(a.code), a.index, a.offset, 0)
}

// Block, offset and hops of a position.
#[tactic(auto, using(records::proofs::Bare::bare_is), unfolding(crate::specs::Lists::find_equal))]
pub fn find(list: &[u8], at: usize) -> bool
    ensures { result ≡ find_equal list.now at }
{
    let card = place(list, at, 4);
    let a = TidFind::from(ctz::ctz_find(
        geometry(list, card),
        image(list, card),
        word(list, at, 5),
        word(list, at, 6),
        word(list, at, 7),
    ));
    told(list, at, bare(a.code), a.block, a.offset, a.hops)
}

// The blocks that a visit hands over, in their order, and how many: at most 64.
fn visited(list: &[u8], at: usize, card: usize, blocks: usize, begun: Visit) -> bool
    ensures { result ≡ visited_of 64 list.now at card blocks 0 begun }
{
    let g = geometry(list, card);
    let mut v = begun;
    for i in 0..64 {
        match ctz::visit::ctz_traverse(g, image(list, card), v) {
            Ok(step) => {
                if step.block != word(list, blocks, i) {
                    return false;
                }
                match step.next {
                    Some(next) => v = next,
                    None => return told(list, at, 0, i + 1, 0, 0),
                }
            }
            Err(refusal) => return told(list, at, bare(refusal.code()), i, 0, 0),
        }
    }
    false
}

// The blocks of a list, last index first.
#[tactic(auto, unfolding(crate::specs::Lists::visit_equal))]
pub fn visit(list: &[u8], at: usize) -> bool
    ensures { result ≡ visit_equal list.now at }
{
    let card = place(list, at, 4);
    match ctz::visit::ctz_visit(geometry(list, card), word(list, at, 5), word(list, at, 6)) {
        Ok(Some(begun)) => visited(list, at, card, place(list, at, 7), begun),
        Ok(None) => told(list, at, 0, 0, 0, 0),
        Err(refusal) => told(list, at, bare(refusal.code()), 0, 0, 0),
    }
}
