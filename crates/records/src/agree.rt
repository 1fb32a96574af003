// Whether an answer is the one that a record has, and whether two windows agree.
ghost use Rattle.std.specs.Prelude.{◌≡◌};
ghost use Rattle.records.specs.Agreement.{bare_of, told_of, maps_agree, windows_agree};

use crate::word;
use span::bits;
use window::Lookahead;

// Whether these are the four words of the answer.
#[tactic(auto, unfolding(crate::specs::Agreement::told_of))]
pub fn told(list: &[u8], at: usize, code: u32, first: u32, second: u32, third: u32) -> bool
    ensures { result ≡ told_of list.now at code first second third }
{
    code == word(list, at, 0)
        && first == word(list, at, 1)
        && second == word(list, at, 2)
        && third == word(list, at, 3)
}

// Whether two maps agree from bit `next` on.
#[tactic(auto, using(crate::proofs::Agreeing::maps_end, crate::proofs::Agreeing::maps_turn))]
fn same_map(ours: [u8; 64], theirs: [u8; 64], next: u32) -> bool
    ensures { result ≡ maps_agree ours theirs next }
{
    for o in next..512 {
        if bits::is_set(&ours, o) != bits::is_set(&theirs, o) {
            return false;
        }
    }
    true
}

// Whether two windows agree: all numbers, and the map of the blocks that are not passed yet.
#[tactic(auto, unfolding(crate::specs::Agreement::windows_agree))]
pub fn same_window(ours: Lookahead, theirs: Lookahead) -> bool
    ensures { result ≡ windows_agree ours theirs }
{
    ours.start == theirs.start
        && ours.next == theirs.next
        && ours.size == theirs.size
        && ours.ckpoint == theirs.ckpoint
        && same_map(ours.map, theirs.map, ours.next)
}

// A call's number without its sign, as the records have it.
pub fn bare(code: i32) -> u32
    ensures { result ≡ bare_of code }
{
    code.unsigned_abs()
}
