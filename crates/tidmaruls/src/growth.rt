// One growth of a list.
ghost use Rattle.std.specs.Prelude.{◌≡◌};
ghost use Rattle.grow.specs.Extend.{extend_of};
ghost use Rattle.grow.specs.Setting.{setting_of};
ghost use Rattle.told_windows.specs.Windows.{extend_told};

use files::Table;
use layout::Geometry;
use told_windows::TidExtend;
use window::Lookahead;

// The list (head, size) grown by one block.
#[unsafe(no_mangle)]
pub extern "C" fn tid_extend(
    g: Geometry,
    lookahead: u32,
    image: &mut [u8],
    health: &[u8],
    t: Table,
    w: Lookahead,
    head: u32,
    size: u32,
) -> TidExtend
    ensures { (result ≡ extend_told (extend_of (setting_of g lookahead health.now)
        (record { window = w; table = t; image = image.old })
        (record { head = head; size = size })))
        × (image.new ≡ (extend_of (setting_of g lookahead health.now)
        (record { window = w; table = t; image = image.old })
        (record { head = head; size = size })).image) }
{
    TidExtend::from(grow::ctz_extend(g, lookahead, image, health, t, w, head, size))
}
