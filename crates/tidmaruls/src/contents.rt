// The bytes of a file: read, and the place of a stretch.
ghost use Rattle.std.specs.Prelude.{◌≡◌};
ghost use Rattle.card.specs.Card.{card_of};
ghost use Rattle.reading.specs.Calls.{read_of, stretch_of};
ghost use Rattle.told_files.specs.Contents.{read_told, placed_told};

use files::Table;
use layout::Geometry;
use told_files::{TidRead, TidStretch};

// Bytes of a file from a position on, to the front of the buffer.
#[unsafe(no_mangle)]
pub extern "C" fn tid_read(
    g: Geometry,
    image: &[u8],
    t: Table,
    number: u32,
    pos: u32,
    buffer: &mut [u8],
) -> TidRead
    ensures { (result ≡ read_told (read_of (card_of g image.now) t (record { number = number; position = pos }) buffer.old).answer)
        × (buffer.new ≡ (read_of (card_of g image.now) t (record { number = number; position = pos }) buffer.old).buffer) }
{
    TidRead::from(reading::read(g, image, t, number, pos, buffer))
}

// The bytes from a position to the end of its block or file.
#[unsafe(no_mangle)]
pub extern "C" fn tid_stretch(
    g: Geometry,
    image: &[u8],
    t: Table,
    number: u32,
    pos: u32,
) -> TidStretch
    ensures { result ≡ placed_told (stretch_of (card_of g image.now) t (record { number = number; position = pos })) }
{
    TidStretch::from(reading::stretch_place(g, image, t, number, pos))
}
