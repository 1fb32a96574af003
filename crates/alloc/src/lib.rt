// Allocation on a card: a scan marks every block of every file, and the window hands out the first unmarked one.
#![tactic(auto)]

ghost use Rattle.std.specs.Prelude.{◌≡◌};
ghost use Rattle.card.specs.Card.{card_of};
ghost use Rattle.card.specs.inner.Cards.{card_with};
ghost use Rattle.window.specs.Scan.{scan_of};
ghost use Rattle.window.specs.Allocate.{alloc_of};
ghost use Rattle.window.specs.inner.Facts.{scope};
ghost use Rattle.alloc.specs.Visits.{seen_of, seen_in};
ghost use Rattle.alloc.specs.Allocate.{allocate_of};
ghost use Rattle.alloc.specs.inner.Facts.{FileAsked, FileMarked, Looking};

use card::Card;
use ctz::visit::Visit;
use files::{Entry, Table};
use layout::{Geometry, Refusal};
use window::{Lookahead, Windowed};

// Every block of one file marked in the map of a window, as the visit hands it over.
fn mark_file(
    map: &mut [u8; 64],
    start: u32,
    size: u32,
    card: Card<'_>,
    file: Entry,
) -> Result<(), Refusal>
    requires { FileAsked start size card.block_count file }
    ensures { FileMarked start size card.entry.block_count (seen_of (card_with card.entry.block_size card.entry.block_count card.entry.image.now) file) map.old map.new result }
{
    let bytes = file.size;
    if bytes == 0 {
        return Ok(());
    }
    let mut v = Visit {
        index: layout::index_at(card.block_size, bytes - 1),
        block: file.head,
        after: None,
    };
    loop {
        let step = ctz::visit::visit_step(card, v)?;
        window::map::mark(map, start, size, card.block_count, step.block);
        match step.next {
            Some(next) => v = next,
            None => return Ok(()),
        }
    }
}

// A scan: the window moved and cleared, and every block of every file marked. A visit that meets -84 drops the window.
pub fn alloc_scan(card: Card<'_>, l: u32, t: Table, w: Lookahead) -> Windowed<Result<(), Refusal>>
    requires { Looking card.block_count l t w }
    ensures { result ≡ scan_of (scope card.entry.block_count l) (seen_in (card_with card.entry.block_size card.entry.block_count card.entry.image.now) t) w }
{
    let n = card.block_count;
    let mut window = window::cleared(w, n, l);
    let start = window.start;
    let size = window.size;
    for file in &t.files[..t.count as usize] {
        if let Err(damaged) = mark_file(&mut window.map, start, size, card, *file) {
            return Windowed {
                answer: Err(damaged),
                window: window::alloc_drop(window, n),
            };
        }
    }
    Windowed {
        answer: Ok(()),
        window,
    }
}

// The first unmarked block, with as many scans as that takes; no space once every block since the checkpoint was passed.
#[tactic(auto, using(crate::proofs::Turning::ends_at_zero))]
pub fn alloc_in(card: Card<'_>, l: u32, t: Table, w: Lookahead) -> Windowed<Result<u32, Refusal>>
    requires { Looking card.block_count l t w }
    ensures { result ≡ alloc_of (scope card.entry.block_count l) (seen_in (card_with card.entry.block_size card.entry.block_count card.entry.image.now) t) w }
{
    let mut v = w;
    loop {
        let taken = window::take(v, card.block_count);
        let window = taken.window;
        if let Some(block) = taken.answer {
            return Windowed {
                answer: Ok(block),
                window,
            };
        }
        if window.ckpoint == 0 {
            return Windowed {
                answer: Err(Refusal::NoSpace),
                window,
            };
        }
        let scan = alloc_scan(card, l, t, window);
        if let Err(refusal) = scan.answer {
            return Windowed {
                answer: Err(refusal),
                window: scan.window,
            };
        }
        v = scan.window;
    }
}

// An allocation, for every input. Refused, before anything else: geometry, slice or L; then window or table.
#[tactic(auto, using(std::proofs::lemmas::Bool::Decides::nat_tests), unfolding(crate::specs::Allocate::allocate_of))]
pub fn alloc(
    g: Geometry,
    l: u32,
    image: &[u8],
    t: Table,
    w: Lookahead,
) -> Windowed<Result<u32, Refusal>>
    ensures { result ≡ allocate_of (card_of g image.now) l t w }
{
    let Ok(card) = Card::new(g, image) else {
        return Windowed {
            answer: Err(Refusal::Invalid),
            window: w,
        };
    };
    if window::valid_lookahead(l)
        && window::valid_window(w, card.block_count, l)
        && files::valid_table(t)
    {
        return alloc_in(card, l, t, w);
    }
    Windowed {
        answer: Err(Refusal::Invalid),
        window: w,
    }
}
