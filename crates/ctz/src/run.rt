// The blocks of a run: indexes of one list that stand together.
ghost use Rattle.std.specs.Prelude.{◌≡◌, ◌+◌, length};
ghost use Rattle.card.specs.Card.{pointer};
ghost use Rattle.ctz.specs.inner.Bounds.{Walks, RunAsked};
ghost use Rattle.ctz.specs.inner.Runs.{seek, block_found, RunKnown, RunGives};

use card::Card;
use layout::Refusal;

// The block of an index, by a walk from the head.
fn walked(card: Card<'_>, head: u32, top: u32, i: u32) -> Result<u32, Refusal>
    requires { Walks card.block_size top }
    ensures { result ≡ block_found (seek (pointer card.entry.block_size card.entry.image.now) card.entry.block_count head top i) }
{
    let found = crate::walk_to(card, 0, i, top, head)?;
    Ok(found.block)
}

// The block of index first + j, where the blocks of the run's later indexes are known: by one pointer of the block that the lookup passes
// through last, where that is one of them; else by a walk.
fn led(
    card: Card<'_>,
    head: u32,
    top: u32,
    first: u32,
    count: u32,
    j: u32,
    blocks: &[u32; 1024],
) -> Result<u32, Refusal>
    requires { RunKnown (pointer card.block_size card.image.now) card.block_size card.block_count head top first count j blocks.now }
    ensures { result ≡ block_found (seek (pointer card.entry.block_size card.entry.image.now) card.entry.block_count head top (first + j)) }
{
    let i = first + j;
    if i == 0 {
        return walked(card, head, top, i);
    }
    let x = u32::trailing_zeros(i);
    let d = crate::power(x);
    if count - j <= d {
        return walked(card, head, top, i);
    }
    let block = card.pointer(blocks[(j + d) as usize], x);
    if card.block_count <= block {
        return Err(Refusal::Damaged);
    }
    Ok(block)
}

// The blocks of the `count` indexes from `first` on go to the front of `blocks`; -84 where a lookup among theirs meets it.
pub fn find_run(
    card: Card<'_>,
    head: u32,
    top: u32,
    first: u32,
    count: u32,
    blocks: &mut [u32; 1024],
) -> Result<(), Refusal>
    requires { RunAsked card.block_size top first count (length blocks.old) }
    ensures { RunGives (pointer card.entry.block_size card.entry.image.now) card.entry.block_count head top first count (length blocks.old) result blocks.new }
{
    for j in (0..count).rev() {
        blocks[j as usize] = led(card, head, top, first, count, j, blocks)?;
    }
    Ok(())
}
