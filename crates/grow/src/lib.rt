// One growth of a block list: ctz_extend.
#![tactic(auto)]

pub mod attempts;
mod block;

ghost use Rattle.std.specs.Prelude.{◌≡◌};
ghost use Rattle.grow.specs.declared.Failed.TheVariants as Failed;
ghost use Rattle.grow.specs.Setting.{tested_of};
ghost use Rattle.grow.specs.Extend.{extend_of};
ghost use Rattle.grow.specs.inner.Setting.{setting};
ghost use Rattle.grow.specs.inner.Extend.{extend_tested};
ghost use Rattle.grow.specs.inner.Gives.{GrewGives};

use attempts::extend_scan;
use device::Spoiled;
use files::Table;
use layout::{Geometry, Refusal};
use window::{Lookahead, Windowed};

// The new last block of a list, and where in it the next byte goes.
#[derive(Clone, Copy, Debug, PartialEq, Eq)]
pub struct Grown {
    pub block: u32,
    pub offset: u32,
}

// Why a try with one block comes to nothing.
#[derive(Clone, Copy, Debug, PartialEq, Eq)]
pub enum Failed {
    // The block refuses its erase or first program, and another one may be tried.
    Spoiled,
    Refused(Refusal),
}

impl From<Spoiled> for Failed {
    ghost from_gives = { λ _ e. e ≡ Failed.Spoiled };

    fn from(_spoiled: Spoiled) -> Failed {
        Failed::Spoiled
    }
}

impl From<Refusal> for Failed {
    ghost from_gives = { λ refusal e. e ≡ Failed.Refused refusal };

    fn from(refusal: Refusal) -> Failed {
        Failed::Refused(refusal)
    }
}

// Whether a call that writes passes its first tests: geometry and slices, health bytes, L, and the window.
#[tactic(auto, using(crate::proofs::Tests::lookahead_most), unfolding(crate::specs::Setting::tested_of))]
pub fn valid_setting(g: Geometry, l: u32, len: usize, health: &[u8], w: Lookahead) -> bool
    ensures { result ≡ tested_of (setting g.block_size g.block_count l health.now) w len }
{
    card::good_card(g, len)
        && health::good_health(health, g.block_count)
        && window::valid_lookahead(l)
        && window::valid_window(w, g.block_count, l)
}

// Whether a growth is not refused: the first tests, then table and size.
#[tactic(auto, unfolding(crate::specs::inner::Extend::extend_tested))]
fn valid_extend(
    g: Geometry,
    l: u32,
    len: usize,
    health: &[u8],
    t: Table,
    w: Lookahead,
    size: u32,
) -> bool
    ensures { result ≡ extend_tested g.block_size g.block_count l len health.now t w size }
{
    valid_setting(g, l, len, health, w) && files::valid_table(t) && size <= Geometry::FILE_MAX
}

// The next last block of the list (head, size), for every input: allocated, erased, and linked or filled with the last block's bytes. Refused: all as it came.
pub fn ctz_extend(
    g: Geometry,
    l: u32,
    image: &mut [u8],
    health: &[u8],
    t: Table,
    w: Lookahead,
    head: u32,
    size: u32,
) -> Windowed<Result<Grown, Refusal>>
    ensures { GrewGives
        (extend_of
        (record { B = g.block_size; N = g.block_count; L = l; health = health.now })
        (record { window = w; table = t; image = image.old })
        (record { head = head; size = size }))
        result image.new }
{
    if valid_extend(g, l, image.len(), health, t, w, size) {
        return extend_scan(
            g.block_size,
            g.block_count,
            l,
            image,
            health,
            t,
            w,
            head,
            size,
        );
    }
    Windowed {
        answer: Err(Refusal::Invalid),
        window: w,
    }
}
