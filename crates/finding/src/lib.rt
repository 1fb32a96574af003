// The blocks that hold the bytes of a read: every one is found before a byte is copied, and up to 1,024 are noted at a time.
#![tactic(auto)]

ghost use Rattle.std.specs.Prelude.{length};
ghost use Rattle.card.specs.Card.{pointer};
ghost use Rattle.finding.specs.inner.Runs.{Indexed, Tested, Answered, Notable, Held, Turning, Turned, RunSought};

use card::Card;
use layout::Refusal;

// Whether the lookups of the indexes from `first` to `last` find their blocks; -84 where one of them meets it.
fn found_from(card: Card<'_>, head: u32, top: u32, first: u32, last: u32) -> Result<(), Refusal>
    requires { Indexed card.block_size top last }
    ensures { Tested (pointer card.entry.block_size card.entry.image.now) card.entry.block_count head top first last result }
{
    let mut blocks: [u32; 1024] = [0; 1024];
    for i in (first..last + 1).step_by(1024) {
        let part = (last - i + 1).min(1024);
        ctz::run::find_run(card, head, top, i, part, &mut blocks)?;
    }
    Ok(())
}

// Whether the lookup of every block finds it that holds one of the `count` bytes from `pos` on; -84 where one meets it. Then the first 1,024 of them are noted.
pub fn found_all(
    card: Card<'_>,
    head: u32,
    size: u32,
    pos: u32,
    count: u32,
    blocks: &mut [u32; 1024],
) -> Result<(), Refusal>
    requires { RunSought size pos count (length blocks.old) }
    ensures { Answered card.entry.image.now card.entry.block_size card.entry.block_count head size pos count result blocks.new }
{
    let top = layout::index_at(card.block_size, size - 1);
    let first = layout::index_at(card.block_size, pos);
    let last = layout::index_at(card.block_size, pos + (count - 1));
    let part = (last - first + 1).min(1024);
    ctz::run::find_run(card, head, top, first, part, blocks)?;
    if last - first < 1024 {
        return Ok(());
    }
    found_from(card, head, top, first + 1024, last)
}

// Notes the blocks of the indexes from `base` to `last`, or as many as there is room for. All are found: the answer is Ok.
fn note(card: Card<'_>, head: u32, top: u32, base: u32, last: u32, blocks: &mut [u32; 1024])
    requires { Notable card.image.now card.block_size card.block_count head top base last (length blocks.old) }
    ensures { Held (pointer card.entry.block_size card.entry.image.now) card.entry.block_count head top base last blocks.new }
{
    let part = (last - base + 1).min(1024);
    let _ = ctz::run::find_run(card, head, top, base, part, blocks);
}

// The index from which blocks are noted, for the block of index i to be one of them: the same, or i itself once they are used up.
pub fn turned(
    card: Card<'_>,
    head: u32,
    top: u32,
    base: u32,
    i: u32,
    last: u32,
    blocks: &mut [u32; 1024],
) -> u32
    requires { Turning card.image.now card.block_size card.block_count head top base i last blocks.old }
    ensures { Turned (pointer card.entry.block_size card.entry.image.now) card.entry.block_count head top result i last blocks.new }
{
    if i - base < 1024 {
        return base;
    }
    note(card, head, top, i, last, blocks);
    i
}
