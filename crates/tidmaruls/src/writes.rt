// Files changed: write and truncate.
ghost use Rattle.std.specs.Prelude.{◌≡◌};
ghost use Rattle.grow.specs.Setting.{setting_of};
ghost use Rattle.store.specs.Store.{stored_of, store_write, store_truncate};
ghost use Rattle.told_files.specs.Contents.{stored_told};

use files::Table;
use layout::Geometry;
use told_files::TidStore;
use window::Lookahead;

// Bytes written at a position of a file.
#[unsafe(no_mangle)]
pub extern "C" fn tid_write(
    g: Geometry,
    lookahead: u32,
    image: &mut [u8],
    health: &[u8],
    w: Lookahead,
    t: Table,
    number: u32,
    pos: u32,
    data: &[u8],
) -> TidStore
    ensures { (result ≡ stored_told (stored_of (store_write (setting_of g lookahead health.now)
        (record { window = w; table = t; image = image.old })
        (record { number = number; position = pos; bytes = «data».now }))))
        × (image.new ≡ (store_write (setting_of g lookahead health.now)
        (record { window = w; table = t; image = image.old })
        (record { number = number; position = pos; bytes = «data».now })).state.image) }
{
    TidStore::from(store::write(g, lookahead, image, health, w, t, number, pos, data))
}

// A file cut down to `size` bytes, or grown to it with zeros.
#[unsafe(no_mangle)]
pub extern "C" fn tid_truncate(
    g: Geometry,
    lookahead: u32,
    image: &mut [u8],
    health: &[u8],
    w: Lookahead,
    t: Table,
    number: u32,
    size: u32,
) -> TidStore
    ensures { (result ≡ stored_told (stored_of (store_truncate (setting_of g lookahead health.now)
        (record { window = w; table = t; image = image.old })
        (record { number = number; size = size }))))
        × (image.new ≡ (store_truncate (setting_of g lookahead health.now)
        (record { window = w; table = t; image = image.old })
        (record { number = number; size = size })).state.image) }
{
    TidStore::from(store::truncate(g, lookahead, image, health, w, t, number, size))
}
