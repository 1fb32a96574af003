// A try with one block: erased, and linked to the list or filled with the last block's bytes.
ghost use Rattle.std.specs.Prelude.{◌*◌, ◌≤◌};
ghost use Rattle.layout.specs.Numbers.{size_max};
ghost use Rattle.device.specs.inner.Bounds.{Blank};
ghost use Rattle.grow.specs.inner.Attempt.{attempt_of, try_of, LinkGives, Linking, put_pointers};

use crate::{Failed, Grown};
use device::Spoiled;
use layout::Refusal;

// The pointers of block `k`: the first names `head`, each next is read from the block just named; each is tested before it is programmed.
fn put_pointers(
    image: &mut [u8],
    health: &[u8],
    b: u32,
    n: u32,
    k: u32,
    count: u32,
    head: u32,
) -> Result<Grown, Failed>
    requires { Linking b n k image.old health.now × (4 * count ≤ b) × Blank b k 0 (4 * count) image.old }
    ensures { LinkGives
        (put_pointers health.now b n k (4 * count) count 0 head image.old)
        result image.new }
{
    let mut cur = head;
    for x in 0..count {
        if n <= cur {
            return Err(Failed::Refused(Refusal::Damaged));
        }
        programs::program_word(image, health, b, k, 4 * x, cur)?;
        cur = card::pointer(&image[..], b, cur, x);
    }
    Ok(Grown {
        block: k,
        offset: 4 * count,
    })
}

// Block `k`, just erased, becomes the last block of the list: an incomplete last block has its bytes copied, a full one gets pointers.
fn link(
    image: &mut [u8],
    health: &[u8],
    b: u32,
    n: u32,
    k: u32,
    head: u32,
    size: u32,
) -> Result<Grown, Failed>
    requires { Linking b n k image.old health.now × (size ≤ size_max) × Blank b k 0 b image.old }
    ensures { LinkGives
        (attempt_of health.now b n k head size image.old)
        result image.new }
{
    if size == 0 {
        return Ok(Grown {
            block: k,
            offset: 0,
        });
    }
    if n <= head {
        return Err(Failed::Refused(Refusal::Damaged));
    }
    let last = size - 1;
    let index = layout::index_at(b, last);
    let used = layout::offset_at(b, last, index) + 1;
    if used == b {
        let count = layout::pointer_count(index + 1);
        return put_pointers(image, health, b, n, k, count, head);
    }
    // A match and no question mark, here and in `try_block`, so that what a refusing block leads to stands in an arm, which its edit changes: that the two
    // patterns differ lets each edit find its own.
    match programs::program_copy(image, health, b, k, 0, head, 0, used) {
        Ok(()) => Ok(Grown {
            block: k,
            offset: used,
        }),
        Err(_) => Err(Failed::Spoiled),
    }
}

// A try with block `k`: erased, and linked to the list.
pub fn try_block(
    image: &mut [u8],
    health: &[u8],
    b: u32,
    n: u32,
    k: u32,
    head: u32,
    size: u32,
) -> Result<Grown, Failed>
    requires { Linking b n k image.old health.now × (size ≤ size_max) }
    ensures { LinkGives
        (try_of health.now b n k head size image.old)
        result image.new }
{
    match device::erase(image, health, b, k) {
        Ok(()) => link(image, health, b, n, k, head, size),
        Err(Spoiled) => Err(Failed::Spoiled),
    }
}
