// Rows of bytes.
ghost use Rattle.std.specs.Prelude.{◌≡◌, ℕ, ◌+◌, ◌<◌, ◌≤◌, List, ◌++◌, length, drop};
ghost use Rattle.chains.specs.Layout.{padded, word};
ghost use Rattle.chains.specs.Reading.{number, zeros};

pub(crate) fn all_zero(bytes: &[u8]) -> bool
    ensures { result ≡ zeros bytes.now }
{
    bytes.iter().all(|b| *b == 0)
}

// Whether there are only zeros from byte i on.
pub(crate) fn zero_from(bytes: &[u8], i: usize) -> bool
    requires { i ≤ length bytes.now }
    ensures { result ≡ zeros (drop i bytes.now) }
{
    all_zero(&bytes[i..])
}

// The 16 bits at byte i, the low byte first.
pub(crate) fn word_at(bytes: &[u8], i: usize) -> u16
    requires { i + 1 < length bytes.now }
    ensures { result ≡ number bytes.now i }
{
    u16::from_le_bytes([bytes[i], bytes[i + 1]])
}

// Writes a part at `at`, before zeros; answers where the next part begins. What it promises is of text before zeros, and of no frame.
pub(crate) fn put(bytes: &mut [u8], at: usize, part: &[u8]) -> usize
    requires { at + length part.now ≤ length bytes.old }
    ensures next { result ≡ at + length part.now }
    ensures text { (n : ℕ) (before : List ℕ) → at ≡ length before → at + length part.now ≤ n → bytes.old ≡ padded n before → bytes.new ≡ padded n (before ++ part.now) }
{
    let next = at + part.len();
    bytes[at..next].copy_from_slice(part);
    next
}

// Writes 16 bits as `put` does its part, the low byte first.
pub(crate) fn put_word(bytes: &mut [u8], at: usize, n: u16)
    requires { at + 2 ≤ length bytes.old }
    ensures { (m : ℕ) (before : List ℕ) → at ≡ length before → at + 2 ≤ m → bytes.old ≡ padded m before → bytes.new ≡ padded m (before ++ word n) }
{
    put(bytes, at, &n.to_le_bytes());
}
