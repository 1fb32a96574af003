// Reading one list on a card: behind the tests of geometry, slice, table, file number and position.
ghost use Rattle.std.specs.Prelude.{◌≡◌, ◌≤◌, length};
ghost use Rattle.layout.specs.Numbers.{size_max};
ghost use Rattle.layout.specs.inner.Served.{block_list};
ghost use Rattle.card.specs.inner.Cards.{card_with};
ghost use Rattle.plain.specs.Reading.{read_in, stretch_in};
ghost use Rattle.plain.specs.inner.Forms.{range};
ghost use Rattle.reading.specs.Calls.{given, placed_of};

use crate::Part;
use card::Card;
use copies::copy_found;
use layout::Refusal;

// Read: every block touched is looked up before a byte is copied.
pub fn read_in(
    card: Card<'_>,
    head: u32,
    size: u32,
    pos: u32,
    buffer: &mut [u8],
) -> Result<u32, Refusal>
    requires { size ≤ size_max }
    ensures { record { answer = result; buffer = buffer.new }
        ≡ given buffer.old (read_in (card_with card.entry.block_size card.entry.block_count card.entry.image.now) (block_list head size) (range pos (length buffer.old))) }
{
    let count = buffer.len().min(size.saturating_sub(pos) as usize) as u32;
    if count == 0 {
        return Ok(0);
    }
    copy_found(card, head, size, pos, count, buffer)?;
    Ok(count)
}

// Stretch: from the place of a position to the end of its block or of the file.
pub fn place_in(card: Card<'_>, head: u32, size: u32, pos: u32) -> Result<Part, Refusal>
    requires { size ≤ size_max }
    ensures { result ≡ placed_of (stretch_in (card_with card.entry.block_size card.entry.block_count card.entry.image.now) (block_list head size) pos) }
{
    if size <= pos {
        return Ok(Part {
            place: 0,
            length: 0,
        });
    }
    let found = ctz::find_in(card, head, size, pos)?;
    Ok(Part {
        place: found.block * card.block_size + found.offset,
        length: (card.block_size - found.offset).min(size - pos),
    })
}
