// What a sector and the map hold, line by line.
#![tactic(auto, using(crate::proofs::Digits::padded_hex_word))]

ghost use Rattle.std.specs.Prelude.{◌≡◌, ◌*◌, ◌<◌, ◌≤◌, [], ◌∷◌, length, IfOk, string_bytes};
ghost use Rattle.std.proofs.Math.Utf8.{encode};
ghost use Rattle.report.specs.Digits.{hex_digit};
ghost use Rattle.report.specs.Text.{hex_line, hex_text, map_line, map_text, map_mark, marks};

use std::alloc::{AllocError, Global};

// A capital hexadecimal digit.
fn hex_digit(n: u8) -> char
    requires { n < 16 }
    ensures { encode result ≡ hex_digit n ∷ [] }
{
    if n < 10 {
        (b'0' + n) as char
    } else {
        (b'A' + (n - 10)) as char
    }
}

// One line of bytes after the offset of its first.
pub fn hex_line(heap: Global, at: u16, bytes: &[u8]) -> Result<String, AllocError>
    ensures { IfOk result (λ s. string_bytes s ≡ hex_line at bytes.now) }
{
    let mut text = format!(in heap; "{at:04X} ")?;
    // A loop, since each push can fail; and no formatted write of each byte, which takes twice the time.
    for b in bytes {
        text.push(' ')?;
        text.push(hex_digit(*b / 16))?;
        text.push(hex_digit(*b % 16))?;
    }
    text.push('\n')?;
    Ok(text)
}

// Sixteen bytes a line, each line with the offset of its first byte modulo 65,536.
pub fn hex_lines(heap: Global, bytes: &[u8]) -> Result<String, AllocError>
    ensures { IfOk result (λ s. string_bytes s ≡ hex_text bytes.now) }
{
    lines_of_sixteen(heap, bytes)
}

// The lines of all the bytes. `hex_lines` hands on to it and has no proof file, so that the check itself tells where it shows too few.
fn lines_of_sixteen(heap: Global, bytes: &[u8]) -> Result<String, AllocError>
    ensures { IfOk result (λ s. string_bytes s ≡ hex_text bytes.now) }
{
    bytes
        .chunks(16)
        .enumerate()
        .map(|(k, chunk)| hex_line(heap, 16 * (k % 4096) as u16, chunk))
        .try_collect(heap)
}

// How sector n is shown: `#` if it is allocated.
fn mark(map: &[u8], n: usize) -> char
    requires { n < 8 * length map.now }
    ensures { result ≡ map_mark map.now n }
{
    if (map[n / 8] >> (n % 8)) & 1 == 1 {
        '#'
    } else {
        '.'
    }
}

// A mark for each sector of the bytes.
fn marks(heap: Global, map: &[u8]) -> Result<String, AllocError>
    requires { length map.now ≤ 8 }
    ensures { IfOk result (λ s. string_bytes s ≡ marks map.now) }
{
    (0..8 * map.len()).map(|n| mark(map, n)).collect(heap)
}

fn map_line(heap: Global, first: u16, map: &[u8]) -> Result<String, AllocError>
    requires { length map.now ≤ 8 }
    ensures { IfOk result (λ s. string_bytes s ≡ map_line first map.now) }
{
    let marks = marks(heap, map)?;
    format!(in heap; "{first:04X}  {marks}\n")
}

// Sixty-four sectors a line, each line with the number of its first sector modulo 65,536. One chain like hex_lines: a function for
// both would take the line and its text.
pub fn map_lines(heap: Global, map: &[u8]) -> Result<String, AllocError>
    ensures { IfOk result (λ s. string_bytes s ≡ map_text map.now) }
{
    map.chunks(8)
        .enumerate()
        .map(|(k, chunk)| map_line(heap, 64 * (k % 1024) as u16, chunk))
        .try_collect(heap)
}
