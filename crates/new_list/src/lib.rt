// A write by growths, each new block filled before the next growth.
#![tactic(auto)]

ghost use Rattle.std.specs.Prelude.{◌≡◌, min, ◌≤◌, length};
ghost use Rattle.layout.specs.Numbers.{size_max};
ghost use Rattle.ctz.specs.inner.Bounds.{ListFacts};
ghost use Rattle.old_list.specs.inner.Lookups.{look_in};
ghost use Rattle.new_list.specs.inner.Put.{head_of, on_from, WroteGives, Putting, puts};

use files::{Entry, Table};
use grow::Failed;
use layout::{BlockList, Refusal};
use new_block::fill_block;
use old_list::{first_head, tail_looked};
use window::{Lookahead, Windowed};

// The growths of a write from `list` on, each new block filled before the next growth.
fn write_on(
    b: u32,
    n: u32,
    l: u32,
    image: &mut [u8],
    health: &[u8],
    t: Table,
    mut window: Lookahead,
    e: Entry,
    pos: u32,
    data: &[u8],
    mut list: BlockList,
) -> Windowed<Result<BlockList, Refusal>>
    requires { Putting b n l image.old health.now t window e pos «data».now }
    ensures { WroteGives
        (on_from b n l health.now t e pos «data».now window list.head list.size image.old)
        result image.new }
{
    let over = pos + data.len() as u32;
    let new = e.size.max(over);
    while list.size < new {
        let grew = grow::attempts::extend_in(
            b, n, l, image, health, t, window, list.head, list.size,
        );
        window = grew.window;
        match grew.answer {
            Ok(grown) => {
                match fill_block(
                    image,
                    health,
                    b,
                    n,
                    e,
                    pos,
                    data,
                    grown.block,
                    grown.offset,
                    list.size,
                ) {
                    Ok(size) => list = BlockList {
                        head: grown.block,
                        size,
                    },
                    Err(Failed::Spoiled) => {}
                    Err(Failed::Refused(refusal)) => {
                        return Windowed {
                            answer: Err(refusal),
                            window,
                        };
                    }
                }
            }
            // The next arm would do for -28 too; it has one of its own, so that its edit changes it and no other.
            Err(Refusal::NoSpace) => {
                return Windowed {
                    answer: Err(Refusal::NoSpace),
                    window,
                };
            }
            Err(refusal) => {
                return Windowed {
                    answer: Err(refusal),
                    window,
                };
            }
        }
    }
    Windowed {
        answer: Ok(list),
        window,
    }
}

// The head of the first growth, once every block that the write copies is found.
fn looked_up(b: u32, n: u32, image: &[u8], e: Entry, pos: u32, over: u32) -> Result<u32, Refusal>
    requires { ListFacts b n e.size (length image.now) × (over ≤ size_max) }
    ensures { result ≡ head_of (look_in b n e) b image.now (min pos e.size) over e.size }
{
    let head = first_head(b, n, image, e, pos.min(e.size))?;
    tail_looked(b, n, image, e, over)?;
    Ok(head)
}

// A write of at least one byte, or a gap: the checkpoint, the lookups, then the growths. The table is still to change.
pub fn put(
    b: u32,
    n: u32,
    l: u32,
    image: &mut [u8],
    health: &[u8],
    t: Table,
    w: Lookahead,
    e: Entry,
    pos: u32,
    data: &[u8],
) -> Windowed<Result<BlockList, Refusal>>
    requires { Putting b n l image.old health.now t w e pos «data».now }
    ensures { WroteGives
        (puts b n l health.now t e pos «data».now w image.old)
        result image.new }
{
    let window = window::alloc_ckpoint(w, n);
    match looked_up(b, n, &image[..], e, pos, pos + data.len() as u32) {
        Ok(head) => {
            let kept = BlockList {
                head,
                size: pos.min(e.size),
            };
            write_on(b, n, l, image, health, t, window, e, pos, data, kept)
        }
        Err(refusal) => Windowed {
            answer: Err(refusal),
            window,
        },
    }
}
