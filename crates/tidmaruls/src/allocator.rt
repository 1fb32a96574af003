// The lookahead window: fresh, checkpoint, drop, and one allocation.
ghost use Rattle.std.specs.Prelude.{◌≡◌};
ghost use Rattle.card.specs.Card.{card_of};
ghost use Rattle.window.specs.Value.{fresh_reply, checkpoint_reply, dropped_reply};
ghost use Rattle.alloc.specs.Allocate.{allocate_of};
ghost use Rattle.told_windows.specs.Windows.{replied_told, allocated_told};

use files::Table;
use layout::Geometry;
use told_windows::{TidAlloc, TidWindow};
use window::Lookahead;

// A fresh window from block `start` on.
#[unsafe(no_mangle)]
pub extern "C" fn tid_fresh(g: Geometry, lookahead: u32, start: u32) -> TidWindow
    ensures { result ≡ replied_told (fresh_reply g (record { L = lookahead; start = start })) }
{
    TidWindow::from(window::setup::fresh(g, lookahead, start))
}

// The window with its checkpoint count set to the block count.
#[unsafe(no_mangle)]
pub extern "C" fn tid_ckpoint(g: Geometry, lookahead: u32, w: Lookahead) -> TidWindow
    ensures { result ≡ replied_told (checkpoint_reply g lookahead w) }
{
    TidWindow::from(window::setup::checkpoint(g, lookahead, w))
}

// The window emptied, its start kept.
#[unsafe(no_mangle)]
pub extern "C" fn tid_drop(g: Geometry, lookahead: u32, w: Lookahead) -> TidWindow
    ensures { result ≡ replied_told (dropped_reply g lookahead w) }
{
    TidWindow::from(window::setup::dropped(g, lookahead, w))
}

// One allocation.
#[unsafe(no_mangle)]
pub extern "C" fn tid_alloc(
    g: Geometry,
    lookahead: u32,
    image: &[u8],
    t: Table,
    w: Lookahead,
) -> TidAlloc
    ensures { result ≡ allocated_told (allocate_of (card_of g image.now) lookahead t w) }
{
    TidAlloc::from(alloc::alloc(g, lookahead, image, t, w))
}
