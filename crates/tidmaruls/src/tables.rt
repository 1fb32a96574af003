// The file table: create, remove, size, seek, and its saved form.
ghost use Rattle.std.specs.Prelude.{◌≡◌};
ghost use Rattle.files.specs.Table.{size_of};
ghost use Rattle.files.specs.Change.{create_of, remove_of};
ghost use Rattle.files.specs.Seek.{seek_of};
ghost use Rattle.saved.specs.Save.{saved_of, buffer_of};
ghost use Rattle.saved.specs.Load.{load_of};
ghost use Rattle.told_tables.specs.Tables.{changed_told, sized_told, sought_told, saved_told, loaded_told};

use files::Table;
use told_tables::{TidSave, TidSeek, TidSize, TidTable};

// The table with one more, empty file.
#[unsafe(no_mangle)]
pub extern "C" fn tid_create(t: Table, number: u32) -> TidTable
    ensures { result ≡ changed_told (create_of t number) }
{
    TidTable::from(files::change::create(t, number))
}

// The table without a file.
#[unsafe(no_mangle)]
pub extern "C" fn tid_remove(t: Table, number: u32) -> TidTable
    ensures { result ≡ changed_told (remove_of t number) }
{
    TidTable::from(files::change::remove(t, number))
}

// The size of a file.
#[unsafe(no_mangle)]
pub extern "C" fn tid_size(t: Table, number: u32) -> TidSize
    ensures { result ≡ sized_told (size_of t number) }
{
    TidSize::from(files::size(t, number))
}

// A new position in a file, from a held one.
#[unsafe(no_mangle)]
pub extern "C" fn tid_seek(
    t: Table,
    number: u32,
    position: u32,
    offset: i32,
    whence: i32,
) -> TidSeek
    ensures { result ≡ sought_told (seek_of t (record { number = number; position = position; offset = offset; whence = whence })) }
{
    TidSeek::from(files::position::seek(t, number, position, offset, whence))
}

// The table in its saved form, at the front of the buffer.
#[unsafe(no_mangle)]
pub extern "C" fn tid_save(t: Table, buffer: &mut [u8]) -> TidSave
    ensures { (result ≡ saved_told (saved_of t buffer.old)) × (buffer.new ≡ buffer_of t buffer.old) }
{
    TidSave::from(saved::save(t, buffer))
}

// The table that these bytes are the saved form of; that of no files where they are none.
#[unsafe(no_mangle)]
pub extern "C" fn tid_load(bytes: &[u8]) -> TidTable
    ensures { result ≡ loaded_told (load_of bytes.now) }
{
    TidTable::from(saved::load(bytes))
}
