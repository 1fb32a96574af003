// The window of the block allocator, a value: checkpoint, drop, search with eager move, the start of a scan, and which windows are refused.
#![tactic(auto)]

pub mod map;
pub mod setup;

ghost use Rattle.std.specs.Prelude.{◌≡◌, ◌-◌, ◌≤◌};
ghost use Rattle.window.specs.Value.{checkpoint_of, dropped_of, valid_of, lookahead_fits};
ghost use Rattle.window.specs.Allocate.{moved, take_of};
ghost use Rattle.window.specs.Scan.{cleared};
ghost use Rattle.window.specs.inner.Facts.{Searchable, scope};

// Bit o % 8 of byte o / 8 stands for block start + o modulo the block count. Of `size` offsets `next` were passed; the checkpoint count says how many
// blocks may still be passed.
#[repr(C)]
#[derive(Clone, Copy, Debug, PartialEq, Eq)]
pub struct Lookahead {
    pub map: [u8; 64],
    pub start: u32,
    pub next: u32,
    pub size: u32,
    pub ckpoint: u32,
}

// What a call answers, and the window that it leaves.
#[derive(Clone, Copy, Debug, PartialEq, Eq)]
pub struct Windowed<T> {
    pub answer: T,
    pub window: Lookahead,
}

// The checkpoint: every block of the card may be passed again.
pub fn alloc_ckpoint(w: Lookahead, n: u32) -> Lookahead
    ensures { result ≡ checkpoint_of n w }
{
    Lookahead { ckpoint: n, ..w }
}

// The window with nothing left in it, checkpointed.
pub fn alloc_drop(w: Lookahead, n: u32) -> Lookahead
    ensures { result ≡ dropped_of n w }
{
    Lookahead {
        next: 0,
        size: 0,
        ckpoint: n,
        ..w
    }
}

// The window moved on to offset `to`; each block passed lowers the count.
fn moved(w: Lookahead, to: u32) -> Lookahead
    requires { (w.next ≤ to) × (to - w.next ≤ w.ckpoint) }
    ensures { result ≡ moved w to }
{
    Lookahead {
        next: to,
        ckpoint: w.ckpoint - (to - w.next),
        ..w
    }
}

// The first unmarked block, and the window moved on to the next unmarked offset or the end; each block passed lowers the count.
#[tactic(auto, using(crate::proofs::Search::stops_behind, crate::proofs::Search::stops_within, std::proofs::lemmas::Bool::Decides::nat_tests), unfolding(crate::specs::Allocate::take_of))]
pub fn take(w: Lookahead, n: u32) -> Windowed<Option<u32>>
    requires { Searchable w n }
    ensures { result ≡ take_of n w }
{
    let at = map::next_free(&w.map, w.next, w.size);
    if at < w.size {
        let to = map::next_free(&w.map, at + 1, w.size);
        Windowed {
            answer: Some((w.start + at) % n),
            window: moved(w, to),
        }
    } else {
        Windowed {
            answer: None,
            window: moved(w, at),
        }
    }
}

// The start of a scan: the window moved on by what it passed, as long as L and the count allow, with nothing marked yet.
#[tactic(auto, unfolding(crate::specs::Scan::cleared))]
pub fn cleared(w: Lookahead, n: u32, l: u32) -> Lookahead
    requires { (Searchable w n) × (l ≤ 64) }
    ensures { result ≡ cleared (scope n l) w }
{
    Lookahead {
        map: [0; 64],
        start: (w.start + w.next) % n,
        next: 0,
        size: (8 * l).min(w.ckpoint),
        ..w
    }
}

// Lookahead L: 8 to 64 bytes, a multiple of 8.
#[tactic(auto, using(std::proofs::lemmas::Bool::Decides::nat_tests), unfolding(crate::specs::Value::lookahead_fits))]
pub fn valid_lookahead(l: u32) -> bool
    ensures { result ≡ lookahead_fits l }
{
    (8..=64).contains(&l) && l % 8 == 0
}

// Whether a window is one for this block count and lookahead.
#[tactic(auto, using(std::proofs::lemmas::Bool::Decides::nat_tests), unfolding(crate::specs::Value::valid_of))]
pub fn valid_window(w: Lookahead, n: u32, l: u32) -> bool
    requires { l ≤ 64 }
    ensures { result ≡ valid_of (scope n l) w }
{
    w.start < n
        && w.next <= w.size
        && w.size <= (8 * l).min(n)
        && w.size - w.next <= w.ckpoint
        && w.ckpoint <= n
}
