// The window's map, one bit for each offset: mark, and the search for an unmarked one.
ghost use Rattle.std.specs.Prelude.{◌≡◌, ◌-◌, ◌≤◌};
ghost use Rattle.window.specs.Scan.{mark_map};
ghost use Rattle.window.specs.Allocate.{skip};
ghost use Rattle.window.specs.inner.Facts.{window_on, MarkAsked};

use span::bits;

// A block marked, where the window of `size` offsets from `start` on has it.
#[tactic(auto, using(std::proofs::lemmas::Bool::Decides::nat_tests), unfolding(crate::specs::Scan::mark_map))]
pub fn mark(map: &mut [u8; 64], start: u32, size: u32, n: u32, block: u32)
    requires { MarkAsked start size n block }
    ensures { map.new ≡ mark_map n (window_on start size map.old) block }
{
    let off = (block + n - start) % n;
    if off < size {
        bits::set(map, off);
    }
}

// The first unmarked offset from `from` below `size`, else the end.
#[tactic(auto, using(crate::proofs::Search::free_marked, crate::proofs::Search::free_clear, crate::proofs::Search::free_end))]
pub fn next_free(map: &[u8; 64], from: u32, size: u32) -> u32
    requires { size ≤ 512 }
    ensures { result ≡ skip (size - from) map.now from }
{
    for o in from..size {
        if !bits::is_set(map, o) {
            return o;
        }
    }
    from.max(size)
}
