// Four numbers below 65,536 in one word.
ghost use Rattle.std.specs.Prelude.{◌≡◌, ◌<◌};
ghost use Rattle.marks.specs.Packing.{packed, first_in, second_in, third_in, fourth_in};

pub fn pack(a: usize, b: usize, c: usize, d: usize) -> u64
    requires { (a < 65536) × (b < 65536) × (c < 65536) × (d < 65536) }
    ensures { result ≡ packed a b c d }
{
    ((a as u64) << 48) + ((b as u64) << 32) + ((c as u64) << 16) + d as u64
}

pub fn first_in(x: u64) -> usize
    ensures { result ≡ first_in x }
{
    (x >> 48) as usize
}

pub fn second_in(x: u64) -> usize
    ensures { result ≡ second_in x }
{
    (x >> 32) as usize & 0xFFFF
}

pub fn third_in(x: u64) -> usize
    ensures { result ≡ third_in x }
{
    (x >> 16) as usize & 0xFFFF
}

pub fn fourth_in(x: u64) -> usize
    ensures { result ≡ fourth_in x }
{
    x as usize & 0xFFFF
}
