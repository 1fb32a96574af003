// The visit of a block list, a step at a time.
ghost use Rattle.std.specs.Prelude.{◌≡◌};
ghost use Rattle.card.specs.Card.{card_of};
ghost use Rattle.ctz.specs.Visits.{begin_of, traverse_of};
ghost use Rattle.told_lists.specs.Lists.{place_asked, begun_told, step_told};

use layout::Geometry;
use told_lists::{TidPlace, TidStep, TidVisit};

// The visit of the list (head, size), at its last index.
#[unsafe(no_mangle)]
pub extern "C" fn tid_visit(g: Geometry, head: u32, size: u32) -> TidVisit
    ensures { result ≡ begun_told (begin_of g (record { head = head; size = size })) }
{
    TidVisit::from(ctz::visit::ctz_visit(g, head, size))
}

// One step of a visit.
#[unsafe(no_mangle)]
pub extern "C" fn tid_traverse(g: Geometry, image: &[u8], place: TidPlace) -> TidStep
    ensures { result ≡ step_told (traverse_of (card_of g image.now) (place_asked place)) }
{
    TidStep::from(ctz::visit::ctz_traverse(g, image, place.into()))
}
