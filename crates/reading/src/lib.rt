// The reading calls of the store: read, and the stretch with its companion. Both see geometry, image, table, file number and position.
#![tactic(auto)]

mod list;

ghost use Rattle.std.specs.Prelude.{◌≡◌};
ghost use Rattle.card.specs.Card.{card_of};
ghost use Rattle.reading.specs.Calls.{entry_of, read_of, stretch_of, stretch_bytes, placed_place, placed_length};

use card::Card;
use files::{Entry, Table};
use layout::{Geometry, Refusal};

// Where a stretch lies in the image.
#[derive(Clone, Copy, Debug, PartialEq, Eq)]
pub struct Part {
    pub place: u32,
    pub length: u32,
}

// The file that a call is about, behind the tests that follow those of geometry and slice, in their order: table, file number, no such file, position.
#[tactic(auto, using(crate::proofs::Asks::found_slot))]
fn ask(t: Table, number: u32, pos: u32) -> Result<Entry, Refusal>
    ensures { result ≡ entry_of t (record { number = number; position = pos }) }
{
    let i = files::find(t, number)?;
    if Geometry::FILE_MAX < pos {
        return Err(Refusal::Invalid);
    }
    Ok(t.files[i as usize])
}

// Reads min(room, size - position) bytes into the front of the buffer, and answers how many; on a refusal the buffer is as it came.
#[tactic(auto, unfolding(crate::specs::Calls::read_of, crate::specs::Calls::asked_of))]
pub fn read(
    g: Geometry,
    image: &[u8],
    t: Table,
    number: u32,
    pos: u32,
    buffer: &mut [u8],
) -> Result<u32, Refusal>
    ensures { record { answer = result; buffer = buffer.new }
        ≡ read_of (card_of g image.now) t (record { number = number; position = pos }) buffer.old }
{
    let card = Card::new(g, image)?;
    let file = ask(t, number, pos)?;
    list::read_in(card, file.head, file.size, pos, buffer)
}

// The place and length of a stretch: from a position to the end of its block or file; the empty part at place 0 at or past the end.
#[tactic(auto, unfolding(crate::specs::Calls::stretch_of, crate::specs::Calls::asked_of))]
pub fn stretch_place(
    g: Geometry,
    image: &[u8],
    t: Table,
    number: u32,
    pos: u32,
) -> Result<Part, Refusal>
    ensures { result ≡ stretch_of (card_of g image.now) t (record { number = number; position = pos }) }
{
    let card = Card::new(g, image)?;
    let file = ask(t, number, pos)?;
    list::place_in(card, file.head, file.size, pos)
}

// The place of a stretch; 0 on a refusal.
pub fn place_of(p: Result<Part, Refusal>) -> u32
    ensures { result ≡ placed_place p }
{
    match p {
        Ok(part) => part.place,
        Err(_) => 0,
    }
}

// The length of a stretch; 0 on a refusal.
pub fn length_of(p: Result<Part, Refusal>) -> u32
    ensures { result ≡ placed_length p }
{
    match p {
        Ok(part) => part.length,
        Err(_) => 0,
    }
}

// The stretch itself: the part of the caller's own image at that place, of that length; a refusal gives the empty part at place 0.
pub fn stretch<'a>(g: Geometry, image: &'a [u8], t: Table, number: u32, pos: u32) -> &'a [u8]
    ensures { result.now ≡ stretch_bytes image.now (stretch_of (card_of g image.now) t (record { number = number; position = pos })) }
{
    let placed = stretch_place(g, image, t, number, pos);
    let place = place_of(placed) as usize;
    let length = length_of(placed) as usize;
    &image[place..place + length]
}
