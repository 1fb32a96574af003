// The list check: a list is sound, or has a first fault.
ghost use Rattle.std.specs.Prelude.{◌≡◌};
ghost use Rattle.card.specs.Card.{card_of};
ghost use Rattle.audit.specs.Check.{check_of};
ghost use Rattle.told_lists.specs.Lists.{checked_told};

use layout::Geometry;
use told_lists::TidCheck;

// Whether the list (head, size) is sound, or its first fault.
#[unsafe(no_mangle)]
pub extern "C" fn tid_check(g: Geometry, image: &[u8], head: u32, size: u32) -> TidCheck
    ensures { result ≡ checked_told (check_of (card_of g image.now) (record { head = head; size = size })) }
{
    TidCheck::from(audit::ctz_check(g, image, head, size))
}
