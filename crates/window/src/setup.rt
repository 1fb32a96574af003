// The calls that set a window up: fresh, checkpoint and drop, for every input.
ghost use Rattle.std.specs.Prelude.{◌≡◌};
ghost use Rattle.window.specs.Value.{sizes_fit, fresh_of, fresh_reply, checkpoint_reply, dropped_reply};
ghost use Rattle.window.specs.inner.Facts.{scope};

use crate::{Lookahead, Windowed};
use layout::{Geometry, Refusal};

// Whether geometry and lookahead are right.
#[tactic(auto, using(crate::proofs::Valid::sizes_told, std::proofs::lemmas::Bool::Decides::nat_tests))]
pub fn valid_sizes(g: Geometry, l: u32) -> bool
    ensures { result ≡ sizes_fit g l }
{
    Geometry::new(g.block_size, g.block_count).is_ok() && crate::valid_lookahead(l)
}

// The window of no blocks from block `start` on, with this count.
fn empty(start: u32, ckpoint: u32) -> Lookahead
    ensures { result ≡ fresh_of (scope ckpoint 0) start }
{
    Lookahead {
        map: [0; 64],
        start,
        next: 0,
        size: 0,
        ckpoint,
    }
}

// A fresh window from block `start` on. Refused: the window of zeros.
#[tactic(auto, using(std::proofs::lemmas::Bool::Decides::nat_tests), unfolding(crate::specs::Value::fresh_reply))]
pub fn fresh(g: Geometry, l: u32, start: u32) -> Windowed<Result<(), Refusal>>
    ensures { result ≡ fresh_reply g (record { L = l; start = start }) }
{
    let n = g.block_count;
    if valid_sizes(g, l) && start < n {
        return Windowed {
            answer: Ok(()),
            window: empty(start, n),
        };
    }
    Windowed {
        answer: Err(Refusal::Invalid),
        window: empty(0, 0),
    }
}

// The window checkpointed. Refused: the window as it came.
#[tactic(auto, using(crate::proofs::Valid::sizes, std::proofs::lemmas::Bool::Decides::nat_tests), unfolding(crate::specs::Value::checkpoint_reply))]
pub fn checkpoint(g: Geometry, l: u32, w: Lookahead) -> Windowed<Result<(), Refusal>>
    ensures { result ≡ checkpoint_reply g l w }
{
    let n = g.block_count;
    if valid_sizes(g, l) && crate::valid_window(w, n, l) {
        return Windowed {
            answer: Ok(()),
            window: crate::alloc_ckpoint(w, n),
        };
    }
    Windowed {
        answer: Err(Refusal::Invalid),
        window: w,
    }
}

// The window dropped. Refused: the window as it came.
#[tactic(auto, using(crate::proofs::Valid::sizes, std::proofs::lemmas::Bool::Decides::nat_tests), unfolding(crate::specs::Value::dropped_reply))]
pub fn dropped(g: Geometry, l: u32, w: Lookahead) -> Windowed<Result<(), Refusal>>
    ensures { result ≡ dropped_reply g l w }
{
    let n = g.block_count;
    if valid_sizes(g, l) && crate::valid_window(w, n, l) {
        return Windowed {
            answer: Ok(()),
            window: crate::alloc_drop(w, n),
        };
    }
    Windowed {
        answer: Err(Refusal::Invalid),
        window: w,
    }
}
