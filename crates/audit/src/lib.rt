// The list check: sound, or its first fault.
#![tactic(auto)]

ghost use Rattle.std.specs.Prelude.{◌≡◌, []};
ghost use Rattle.hops.specs.Walk.{ctz};
ghost use Rattle.card.specs.Card.{card_of, pointer};
ghost use Rattle.ctz.specs.Lists.{down};
ghost use Rattle.ctz.specs.inner.Forms.{pointers_with};
ghost use Rattle.audit.specs.Check.{falls, names, further, check_of};
ghost use Rattle.audit.specs.inner.Bounds.{holder, CleanWalk, Holding};

use card::Card;
use layout::{Geometry, Refusal};
use span::bits;

// What is wrong with a list, with its index and pointer number.
#[derive(Clone, Copy, Debug, PartialEq, Eq)]
pub enum Fault {
    // On the pointer-0 walk: a number that is not below the block count, and the index that it should name.
    NotBelow { index: u32, pointer: u32 },
    // On the pointer-0 walk: a number met before.
    MetBefore { index: u32, pointer: u32 },
    // A further pointer that names another block than the walk met: the holding index and its pointer.
    Disagrees { index: u32, pointer: u32 },
    // An empty list whose head is not null: places 0 and 0.
    NotNull { index: u32, pointer: u32 },
}

// The walk by pointer 0 from index top, whose block should be head, down to index 0; the numbers met are kept in a map of bits.
fn walk_down(card: Card<'_>, top: u32, head: u32) -> Option<Fault>
    ensures { result ≡ falls (pointers_with card.entry.block_count (pointer card.entry.block_size card.entry.image.now)) top head [] }
{
    let mut met = [0u8; 8192];
    let mut k = head;
    for index in (0..=top).rev() {
        if card.block_count <= k {
            return Some(Fault::NotBelow { index, pointer: 0 });
        }
        if bits::is_set(&met, k) {
            return Some(Fault::MetBefore { index, pointer: 0 });
        }
        bits::set(&mut met, k);
        if 0 < index {
            k = card.pointer(k, 0);
        }
    }
    None
}

// The number that lies d indexes below block k, by pointer 0.
#[tactic(auto, unfolding(ctz::specs::Lists::down))]
fn below_in(card: Card<'_>, k: u32, d: u32) -> u32
    requires { CleanWalk card.image.now card.block_size card.block_count d k }
    ensures { result ≡ down (pointer card.entry.block_size card.entry.image.now) k d }
{
    let mut at = k;
    for _ in 0..d {
        at = card.pointer(at, 0);
    }
    at
}

// The further pointers of an index, whose block is k: pointer x names the block that lies 2 to the x indexes below.
fn pointers_at(card: Card<'_>, index: u32, k: u32) -> Option<Fault>
    requires { Holding card.image.now card.block_size card.block_count index k }
    ensures { result ≡ names (pointer card.entry.block_size card.entry.image.now) (ctz index) (holder index k) 1 }
{
    for pointer in 1..=u32::trailing_zeros(index) {
        let named = card.pointer(k, pointer);
        if named != below_in(card, k, ctz::power(pointer)) {
            return Some(Fault::Disagrees { index, pointer });
        }
    }
    None
}

// The further pointers of each index from top, whose block is head, down to index 1.
fn further_from(card: Card<'_>, top: u32, head: u32) -> Option<Fault>
    requires { CleanWalk card.image.now card.block_size card.block_count top head }
    ensures { result ≡ further (pointer card.entry.block_size card.entry.image.now) top head }
{
    let mut k = head;
    for index in (1..=top).rev() {
        if let Some(fault) = pointers_at(card, index, k) {
            return Some(fault);
        }
        k = card.pointer(k, 0);
    }
    None
}

// The list check: the pointer-0 walk from the top, and if that is clean the further pointers; an empty list by its head alone.
// None is a sound list.
#[tactic(auto, using(std::proofs::lemmas::Bool::Decides::nat_tests), unfolding(crate::specs::Check::check_of))]
pub fn ctz_check(g: Geometry, image: &[u8], head: u32, size: u32) -> Result<Option<Fault>, Refusal>
    ensures { result ≡ check_of (card_of g image.now) (record { head = head; size = size }) }
{
    let card = Card::new(g, image)?;
    if Geometry::FILE_MAX < size {
        return Err(Refusal::Invalid);
    }
    if size == 0 {
        if head == Geometry::NULL {
            return Ok(None);
        }
        return Ok(Some(Fault::NotNull {
            index: 0,
            pointer: 0,
        }));
    }
    let top = layout::index_at(card.block_size, size - 1);
    if let Some(fault) = walk_down(card, top, head) {
        return Ok(Some(fault));
    }
    Ok(further_from(card, top, head))
}
