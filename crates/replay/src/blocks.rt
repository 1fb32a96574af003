// Records on the blocks of a card: one allocation and one growth.
ghost use Rattle.std.specs.Prelude.{◌≡◌, true, false, IsSome, length, take};
ghost use Rattle.records.specs.Records.{word_of, image_of};
ghost use Rattle.replay.specs.Blocks.{alloc_equal, grown_on, answer_on, extend_equal};

use records::agree::{bare, same_window, told};
use records::{geometry, image, part, place, table, window, word};
use told_windows::{TidAlloc, TidExtend};

// One allocation: the block, and the window afterwards.
#[tactic(auto, using(records::proofs::Bare::bare_is), unfolding(crate::specs::Blocks::alloc_equal))]
pub fn alloc(list: &[u8], at: usize) -> bool
    ensures { result ≡ alloc_equal list.now at }
{
    let card = place(list, at, 4);
    let got = TidAlloc::from(alloc::alloc(
        geometry(list, card),
        word(list, card, 2),
        image(list, card),
        table(list, place(list, card, 6)),
        window(list, place(list, at, 5)),
    ));
    if !same_window(got.window, window(list, place(list, at, 6))) {
        return false;
    }
    told(list, at, bare(got.code), got.block, 0, 0)
}

// One growth on a copy of the card's image, at the front of the space: what it answers, or None where the space is too short.
fn grown(list: &[u8], at: usize, space: &mut [u8; 2048]) -> Option<TidExtend>
    ensures { (result ≡ answer_on list.now at)
        × (IsSome result → take (length (image_of list.now (word_of list.now at 4))) space.new ≡ (grown_on list.now at).image) }
{
    let card = place(list, at, 4);
    let before = image(list, card);
    let length = before.len();
    if space.len() < length {
        return None;
    }
    span::copy(space, 0, before, 0, length);
    let g = geometry(list, card);
    let grew = grow::ctz_extend(
        g,
        word(list, card, 2),
        &mut space[..length],
        part(list, place(list, card, 5), g.block_count as usize),
        table(list, place(list, card, 6)),
        window(list, place(list, at, 5)),
        word(list, at, 7),
        word(list, at, 8),
    );
    Some(TidExtend::from(grew))
}

// One growth: block and offset with the window afterwards.
#[tactic(auto, using(records::proofs::Bare::bare_is), unfolding(crate::specs::Blocks::extend_equal, crate::specs::Blocks::grown_equal, crate::specs::Blocks::grew_equal))]
pub fn extend(list: &[u8], at: usize) -> bool
    ensures { result ≡ extend_equal false list.now at }
{
    let mut space = [0u8; 2048];
    match grown(list, at, &mut space) {
        Some(grew) => {
            same_window(grew.window, window(list, place(list, at, 6)))
                && told(list, at, bare(grew.code), grew.block, grew.offset, 0)
        }
        None => false,
    }
}

// One growth: the whole image afterwards.
#[tactic(auto, unfolding(crate::specs::Blocks::extend_equal))]
pub fn extended_image(list: &[u8], at: usize) -> bool
    ensures { result ≡ extend_equal true list.now at }
{
    let mut space = [0u8; 2048];
    if grown(list, at, &mut space).is_none() {
        return false;
    }
    let length = image(list, place(list, at, 4)).len();
    check::same(&space[..length], part(list, place(list, at, 9), length))
}
