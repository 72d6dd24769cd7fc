ghost use Rattle.std.specs.Prelude.{◌≡◌, ℕ, ◌<◌, true, false, if◌then◌else◌, nat_eq};
ghost use Rattle.freespace.specs.Bits.{bit_at, bit_of};

pub(crate) fn bit(b: u8, k: u16) -> bool
    requires { k < 8 }
    ensures { result ≡ bit_at b k }
{
    (b >> k) & 1 == 1
}

pub(crate) fn with_bit(b: u8, k: u16) -> u8
    requires { k < 8 }
    ensures { (j : ℕ) → bit_at result j ≡ (if nat_eq j k then true else bit_at b j) }
{
    b | (1 << k)
}

pub(crate) fn without_bit(b: u8, k: u16) -> u8
    requires { (k < 8) × (bit_at b k ≡ true) }
    ensures { (j : ℕ) → bit_at result j ≡ (if nat_eq j k then false else bit_at b j) }
{
    b ^ (1 << k)
}

// Over any N, so that no proof has the bytes written out.
pub(crate) fn no_bytes<const N: usize>() -> [u8; N]
    ensures { (n : ℕ) → bit_of result n ≡ false }
{
    [0; N]
}
