// Records on a file: where a seek leads.
ghost use Rattle.std.specs.Prelude.{◌≡◌};
ghost use Rattle.replay.specs.Files.{some_head, one_file, seek_equal};

use files::{Entry, Table};
use layout::Geometry;
use records::agree::{bare, told};
use records::{signed, word};
use told_tables::TidSeek;

// A head that a file of this size can have.
#[tactic(auto, unfolding(crate::specs::Files::some_head))]
fn some_head(size: u32) -> u32
    ensures { result ≡ some_head size }
{
    if size == 0 { Geometry::NULL } else { 3 }
}

// A table with file 7 alone.
fn one_file(size: u32) -> Table
    ensures { result ≡ one_file size }
{
    let mut t = Table::empty();
    t.files[0] = Entry {
        number: 7,
        size,
        head: some_head(size),
    };
    t.count = 1;
    t
}

// Where a seek leads in a file of a size.
pub fn seek(list: &[u8], at: usize) -> bool
    ensures { result ≡ seek_equal list.now at }
{
    let a = TidSeek::from(files::position::seek(
        one_file(word(list, at, 4)),
        7,
        word(list, at, 5),
        signed(word(list, at, 6)),
        signed(word(list, at, 7)),
    ));
    told(list, at, bare(a.code), a.position, 0, 0)
}
