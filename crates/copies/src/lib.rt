// The bytes of a read, copied block after block once every block is found.
#![tactic(auto)]

ghost use Rattle.std.specs.Prelude.{◌≡◌, ◌+◌, ◌*◌, length, take, drop};
ghost use Rattle.std.proofs.lemmas.List.Edits.{sets};
ghost use Rattle.layout.specs.inner.Served.{block_list};
ghost use Rattle.card.specs.inner.Cards.{card_with};
ghost use Rattle.plain.specs.Reading.{gather};
ghost use Rattle.plain.specs.inner.Forms.{range};
ghost use Rattle.finding.specs.inner.Runs.{got_bytes};
ghost use Rattle.copies.specs.inner.Copies.{Roomy, Parted, Cleared, copied_of};

use card::Card;
use finding::{found_all, turned};
use layout::Refusal;

// A part of block k into a buffer, from place `to` on.
fn copy_part(card: Card<'_>, k: u32, offset: u32, part: u32, to: usize, buffer: &mut [u8])
    requires { Parted card.block_size k offset part to (length card.image.now) (length buffer.old) }
    ensures { buffer.new ≡ sets buffer.old to (take part (drop (k * card.entry.block_size + offset) card.entry.image.now)) }
{
    let size = card.block_size as usize;
    let start = k as usize * size;
    span::copy(
        buffer,
        to,
        &card.image[start..start + size],
        offset as usize,
        part as usize,
    );
}

// Those bytes into a buffer from place `at` on, block after block, where the first blocks are noted.
fn copy_all(
    card: Card<'_>,
    head: u32,
    size: u32,
    pos: u32,
    count: u32,
    at: usize,
    blocks: &mut [u32; 1024],
    buffer: &mut [u8],
)
    requires { Cleared card.image.now card.block_size card.block_count head size pos count at (length buffer.old) blocks.old }
    ensures { buffer.new ≡ sets buffer.old at (got_bytes (gather count (card_with card.entry.block_size card.entry.block_count card.entry.image.now) (block_list head size) (range pos count))) }
{
    let top = layout::index_at(card.block_size, size - 1);
    let last = layout::index_at(card.block_size, pos + (count - 1));
    let first = layout::index_at(card.block_size, pos);
    let mut base = first;
    let mut offset = layout::offset_at(card.block_size, pos, first);
    let mut left = count;
    let mut to = at;
    for i in first..=last {
        base = turned(card, head, top, base, i, last, blocks);
        let part = (card.block_size - offset).min(left);
        copy_part(card, blocks[(i - base) as usize], offset, part, to, buffer);
        left -= part;
        to += part as usize;
        offset = 4 * layout::pointer_count(i + 1);
    }
}

// Those bytes into the front of a buffer, where every lookup finds its block; else the buffer is as it came. The first block, often the only one, is looked up by itself.
pub fn copy_found(
    card: Card<'_>,
    head: u32,
    size: u32,
    pos: u32,
    count: u32,
    buffer: &mut [u8],
) -> Result<(), Refusal>
    requires { Roomy size pos count (length buffer.old) }
    ensures { record { whole = result; after = buffer.new }
        ≡ copied_of buffer.old (gather count (card_with card.entry.block_size card.entry.block_count card.entry.image.now) (block_list head size) (range pos count)) }
{
    let found = ctz::find_in(card, head, size, pos)?;
    let part = (card.block_size - found.offset).min(count);
    let rest = count - part;
    if rest == 0 {
        copy_part(card, found.block, found.offset, part, 0, buffer);
        return Ok(());
    }
    let mut blocks: [u32; 1024] = [0; 1024];
    found_all(card, head, size, pos + part, rest, &mut blocks)?;
    copy_part(card, found.block, found.offset, part, 0, buffer);
    copy_all(
        card,
        head,
        size,
        pos + part,
        rest,
        part as usize,
        &mut blocks,
        buffer,
    );
    Ok(())
}
