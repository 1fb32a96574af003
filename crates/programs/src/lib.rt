// The programs of the device: bytes of a slice, zeros, a word, or bytes of another block go to one block, whose health byte decides whether it is done.
#![tactic(auto)]

ghost use Rattle.std.specs.Prelude.{◌≡◌, ◌+◌, ◌*◌, ◌≤◌, ◌<◌, length, take, drop, replicate, Ok, Err};
ghost use Rattle.span.specs.Words.{bytes32};
ghost use Rattle.device.specs.inner.Steps.{program_of, StepGives};
ghost use Rattle.device.specs.inner.Bounds.{RoomIn, CopyFrom, Blank};
ghost use Rattle.programs.specs.Place.{place_of};

use device::Spoiled;

// Where offset `off` of block `k` stands in the image, unless the block refuses a program.
fn place(health: &[u8], b: u32, k: u32, off: u32) -> Result<usize, Spoiled>
    requires { k < length health.now }
    ensures { result ≡ place_of health.now b k off }
{
    if health::refuses_program(health, k) {
        return Err(Spoiled);
    }
    Ok(k as usize * b as usize + off as usize)
}

// `n` bytes of `src` from `from` on go to block `k` at `off`.
pub fn program(
    image: &mut [u8],
    health: &[u8],
    b: u32,
    k: u32,
    off: u32,
    src: &[u8],
    from: usize,
    n: usize,
) -> Result<(), Spoiled>
    requires { RoomIn b k off n image.old health.now × (from + n ≤ length src.now) × Blank b k off n image.old }
    ensures { StepGives
        (program_of health.now b k off (take n (drop from src.now)) image.old)
        result image.new }
{
    let start = place(health, b, k, 0)?;
    let end = start + b as usize;
    span::copy(&mut image[start..end], off as usize, src, from, n);
    Ok(())
}

// `n` zeros go to block `k` at `off`.
pub fn program_zeros(
    image: &mut [u8],
    health: &[u8],
    b: u32,
    k: u32,
    off: u32,
    n: u32,
) -> Result<(), Spoiled>
    requires { RoomIn b k off n image.old health.now × Blank b k off n image.old }
    ensures { StepGives
        (program_of health.now b k off (replicate n 0) image.old)
        result image.new }
{
    let start = place(health, b, k, 0)?;
    let end = start + b as usize;
    span::fill(&mut image[start..end], off as usize, n as usize, 0);
    Ok(())
}

// The four bytes of `v` go to block `k` at `off`.
pub fn program_word(
    image: &mut [u8],
    health: &[u8],
    b: u32,
    k: u32,
    off: u32,
    v: u32,
) -> Result<(), Spoiled>
    requires { RoomIn b k off 4 image.old health.now × Blank b k off 4 image.old }
    ensures { StepGives
        (program_of health.now b k off (bytes32 v) image.old)
        result image.new }
{
    let start = place(health, b, k, 0)?;
    let end = start + b as usize;
    span::put_word(&mut image[start..end], off as usize, v);
    Ok(())
}

// `n` bytes of block `from_block` from `from_off` on go to block `k` at `off`. Two blocks of one image cannot be lent at once.
pub fn program_copy(
    image: &mut [u8],
    health: &[u8],
    b: u32,
    k: u32,
    off: u32,
    from_block: u32,
    from_off: u32,
    n: u32,
) -> Result<(), Spoiled>
    requires { RoomIn b k off n image.old health.now × CopyFrom b k off from_block from_off n image.old × Blank b k off n image.old }
    ensures { StepGives
        (program_of health.now b k off (take n (drop (from_block * b + from_off) image.old)) image.old)
        result image.new }
{
    let to = place(health, b, k, off)?;
    let from = from_block as usize * b as usize + from_off as usize;
    span::copy_within(image, to, from, n as usize);
    Ok(())
}
