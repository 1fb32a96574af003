// One new block, filled with gap, data and tail.
#![tactic(auto)]

ghost use Rattle.std.specs.Prelude.{◌≤◌, length};
ghost use Rattle.layout.specs.Numbers.{size_max};
ghost use Rattle.device.specs.inner.Steps.{StepGives};
ghost use Rattle.device.specs.inner.Bounds.{RoomIn, Blank};
ghost use Rattle.old_list.specs.Write.{job_of};
ghost use Rattle.old_list.specs.inner.Lookups.{look_in};
ghost use Rattle.new_block.specs.inner.Fill.{front_of, tail_of, fill_of, FillGives, Tailing, Filling};

use device::Spoiled;
use files::Entry;
use grow::Failed;
use old_list::look;

// The front of the `m` positions from `s` on in block `k`: the gap's zeros, then data.
fn front(
    image: &mut [u8],
    health: &[u8],
    b: u32,
    k: u32,
    off: u32,
    s: u32,
    m: u32,
    pos: u32,
    data: &[u8],
) -> Result<(), Spoiled>
    requires { RoomIn b k off m image.old health.now × (length «data».now ≤ size_max) × Blank b k off m image.old }
    ensures { StepGives
        (front_of health.now b k off s m pos «data».now image.old)
        result image.new }
{
    let gap = pos.saturating_sub(s).min(m);
    programs::program_zeros(image, health, b, k, off, gap)?;
    let size = data.len() as u32;
    let from = s.saturating_sub(pos).min(size);
    let run = (m - gap).min(size - from);
    programs::program(
        image,
        health,
        b,
        k,
        off + gap,
        data,
        from as usize,
        run as usize,
    )
}

// Of the `m` positions from `s` on, those from `past` on are the old file's tail, copied from its block of the same index.
fn tail(
    image: &mut [u8],
    health: &[u8],
    b: u32,
    n: u32,
    e: Entry,
    k: u32,
    off: u32,
    s: u32,
    m: u32,
    past: u32,
) -> Result<u32, Failed>
    requires { Tailing b n e k off s m past image.old health.now }
    ensures { FillGives
        (tail_of (look_in b n e) b k off s m past image.old)
        result image.new }
{
    let at = past.saturating_sub(s);
    if m <= at {
        return Ok(s + m);
    }
    let block = look(b, n, &image[..], e, s + at)?;
    // The block took its front, so it takes this too.
    programs::program_copy(image, health, b, k, off + at, block, off + at, m - at).unwrap();
    Ok(s + m)
}

// Block `k` filled from position `s` on: gap and data, then the tail of the old file. It gives the size so far.
pub fn fill_block(
    image: &mut [u8],
    health: &[u8],
    b: u32,
    n: u32,
    e: Entry,
    pos: u32,
    data: &[u8],
    k: u32,
    off: u32,
    s: u32,
) -> Result<u32, Failed>
    requires { Filling b n e pos «data».now k off s image.old health.now }
    ensures { FillGives
        (fill_of (look_in b n e) health.now b (job_of e pos «data».now) k off s image.old)
        result image.new }
{
    let past = pos + data.len() as u32;
    let new = e.size.max(past);
    let m = (new - s).min(b - off);
    // A match and no question mark, so that what a refusing block leads to stands here, where its edit changes it.
    match front(image, health, b, k, off, s, m, pos, data) {
        Ok(()) => tail(image, health, b, n, e, k, off, s, m, past),
        Err(Spoiled) => Err(Failed::Spoiled),
    }
}
