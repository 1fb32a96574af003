// A map of bits, eight to a byte, low bit first.
ghost use Rattle.std.specs.Prelude.{◌≡◌, ◌/◌, ◌<◌, length};
ghost use Rattle.span.specs.Members.{bit_in, with_bit_in};

// Whether bit k is set.
pub fn is_set(map: &[u8], k: u32) -> bool
    requires { k / 8 < length map.now }
    ensures { result ≡ bit_in map.now k }
{
    (map[(k / 8) as usize] >> (k % 8)) % 2 == 1
}

// Sets bit k.
pub fn set(map: &mut [u8], k: u32)
    requires { k / 8 < length map.old }
    ensures { map.new ≡ with_bit_in map.old k }
{
    map[(k / 8) as usize] |= 1 << (k % 8);
}
