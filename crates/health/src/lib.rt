// The health bytes of a card, one a block: whether they are valid, and what a block refuses by its byte.
#![tactic(auto)]

ghost use Rattle.std.specs.Prelude.{◌≡◌, ◌+◌, ◌*◌, ◌≤◌, ◌<◌, leb, length};
ghost use Rattle.health.specs.Health.{each_valid, health_ok, refuses_erase, refuses_program};
ghost use Rattle.health.specs.inner.Bounds.{or_four, NoneAbove};

// `t` ORed with four bytes, `q` places apart from place `at` on.
fn with_four(t: u8, health: &[u8], at: usize, q: usize) -> u8
    requires { at + 3 * q < length health.now }
    ensures { result ≡ or_four health.now at q t }
{
    t | health[at] | health[at + q] | health[at + 2 * q] | health[at + 3 * q]
}

// The first eight runs of `q` bytes, ORed: none of those bytes is above it. A turn takes a byte of each run, and each half of the runs has an OR
// of its own, which compiles to the fastest loop.
fn merged(health: &[u8], q: usize) -> u8
    requires { 8 * q ≤ length health.now }
    ensures { NoneAbove health.now 0 (8 * q) result }
{
    let mut low: u8 = 0;
    let mut high: u8 = 0;
    for i in 0..q {
        low = with_four(low, health, i, q);
        high = with_four(high, health, 4 * q + i, q);
    }
    low | high
}

// The largest byte: it is valid where all of them are.
fn worst(health: &[u8]) -> u8
    ensures { leb result 2 ≡ each_valid health.now }
{
    let mut most: u8 = 0;
    for h in health {
        most = most.max(*h);
    }
    most
}

// Whether there is one health byte for each of `n` blocks, and each is a valid one. The OR settles it for all but the last seven at most,
// unless the card has both kinds of fault: then each byte is looked at.
pub fn good_health(health: &[u8], n: u32) -> bool
    ensures { result ≡ health_ok health.now n }
{
    if health.len() != n as usize {
        return false;
    }
    let q = health.len() / 8;
    if merged(health, q) <= 2 {
        return worst(&health[8 * q..]) <= 2;
    }
    worst(health) <= 2
}

// Whether block `k` refuses an erase.
pub fn refuses_erase(health: &[u8], k: u32) -> bool
    requires { k < length health.now }
    ensures { result ≡ refuses_erase health.now k }
{
    health[k as usize] == 1
}

// Whether block `k` refuses a program.
pub fn refuses_program(health: &[u8], k: u32) -> bool
    requires { k < length health.now }
    ensures { result ≡ refuses_program health.now k }
{
    health[k as usize] == 2
}
