// The functions of FIPS 180-4, 4.1.2, in forms that take fewer operations than the definitions, and the
// sum of words.
ghost use Rattle.std.specs.Prelude.{◌≡◌};
ghost use Rattle.sha256_schedule.specs.Words.{◌⊞◌, ch, maj, Σ₀, Σ₁, σ₀, σ₁};

// The sum modulo 2^32.
pub fn add(x: u32, y: u32) -> u32
    ensures { result ≡ x ⊞ y }
{
    x.wrapping_add(y)
}

// The sum of four words modulo 2^32.
pub fn add_four(x: u32, y: u32, z: u32, w: u32) -> u32
    ensures { result ≡ x ⊞ y ⊞ z ⊞ w }
{
    add(add(add(x, y), z), w)
}

// Each bit of y where x has a one, of z where x has a zero.
pub fn choose(x: u32, y: u32, z: u32) -> u32
    ensures { result ≡ ch x y z }
{
    z ^ (x & (y ^ z))
}

// Each bit that two of the three have.
pub fn majority(x: u32, y: u32, z: u32) -> u32
    ensures { result ≡ maj x y z }
{
    y ^ ((x ^ y) & (y ^ z))
}

// In this function and the next three, the rotation of y is the xor of the definition's first two.
pub fn big_sigma0(x: u32) -> u32
    ensures { result ≡ Σ₀ x }
{
    let y = x ^ x.rotate_right(11);
    y.rotate_right(2) ^ x.rotate_right(22)
}

pub fn big_sigma1(x: u32) -> u32
    ensures { result ≡ Σ₁ x }
{
    let y = x ^ x.rotate_right(5);
    y.rotate_right(6) ^ x.rotate_right(25)
}

pub fn small_sigma0(x: u32) -> u32
    ensures { result ≡ σ₀ x }
{
    let y = x ^ x.rotate_right(11);
    y.rotate_right(7) ^ (x >> 3)
}

pub fn small_sigma1(x: u32) -> u32
    ensures { result ≡ σ₁ x }
{
    let y = x ^ x.rotate_right(2);
    y.rotate_right(17) ^ (x >> 10)
}
