// A growth behind the tests: blocks are allocated and tried until one takes the erase and the first program.
ghost use Rattle.grow.specs.inner.Extend.{extend_in, Extending};
ghost use Rattle.grow.specs.inner.Gives.{GrewGives};

use crate::block::try_block;
use crate::{Failed, Grown};
use card::Card;
use files::Table;
use layout::Refusal;
use window::{Lookahead, Windowed};

// A growth with the files at hand: blocks are allocated until one takes the erase and the first program.
pub(crate) fn extend_scan(
    b: u32,
    n: u32,
    l: u32,
    image: &mut [u8],
    health: &[u8],
    t: Table,
    w: Lookahead,
    head: u32,
    size: u32,
) -> Windowed<Result<Grown, Refusal>>
    requires { Extending b n l image.old health.now t w size }
    ensures { GrewGives
        (extend_in b n l health.now t w head size image.old)
        result image.new }
{
    let mut window = w;
    loop {
        let card = Card {
            block_size: b,
            block_count: n,
            image: &image[..],
        };
        let took = alloc::alloc_in(card, l, t, window);
        window = took.window;
        match took.answer {
            Ok(k) => match try_block(image, health, b, n, k, head, size) {
                Ok(grown) => {
                    return Windowed {
                        answer: Ok(grown),
                        window,
                    };
                }
                Err(Failed::Refused(refusal)) => {
                    return Windowed {
                        answer: Err(refusal),
                        window,
                    };
                }
                Err(Failed::Spoiled) => {}
            },
            Err(refusal) => {
                return Windowed {
                    answer: Err(refusal),
                    window,
                };
            }
        }
    }
}

// The same: the table is copied for this call, so only where it is needed.
fn extend_rest(
    b: u32,
    n: u32,
    l: u32,
    image: &mut [u8],
    health: &[u8],
    t: Table,
    w: Lookahead,
    head: u32,
    size: u32,
) -> Windowed<Result<Grown, Refusal>>
    requires { Extending b n l image.old health.now t w size }
    ensures { GrewGives
        (extend_in b n l health.now t w head size image.old)
        result image.new }
{
    extend_scan(b, n, l, image, health, t, w, head, size)
}

// One growth behind the tests: a good block that the window holds is taken at once, else blocks are allocated.
pub fn extend_in(
    b: u32,
    n: u32,
    l: u32,
    image: &mut [u8],
    health: &[u8],
    t: Table,
    w: Lookahead,
    head: u32,
    size: u32,
) -> Windowed<Result<Grown, Refusal>>
    requires { Extending b n l image.old health.now t w size }
    ensures { GrewGives
        (extend_in b n l health.now t w head size image.old)
        result image.new }
{
    let taken = window::take(w, n);
    let window = taken.window;
    match taken.answer {
        Some(k) => {
            if health[k as usize] != 0 {
                return extend_rest(b, n, l, image, health, t, w, head, size);
            }
            match try_block(image, health, b, n, k, head, size) {
                Ok(grown) => Windowed {
                    answer: Ok(grown),
                    window,
                },
                Err(Failed::Refused(refusal)) => Windowed {
                    answer: Err(refusal),
                    window,
                },
                Err(Failed::Spoiled) => unreachable!(),
            }
        }
        None => extend_rest(b, n, l, image, health, t, w, head, size),
    }
}
