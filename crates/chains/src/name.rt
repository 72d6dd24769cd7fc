// File names and disk IDs.
ghost use Rattle.std.specs.Prelude.{◌≡◌, ◌≤◌, [], length, take};
ghost use Rattle.chains.specs.Names.{all, id_character, legal, legal_id, letter, name_character, spelled};

use crate::bytes::put;
use crate::layout::NAME_BYTES;

// A file name of at most 32 bytes; an empty one is no file's. An array of its own: names are copied, and nothing is allocated.
#[derive(Clone, Copy)]
pub struct Name {
    bytes: [u8; 32],
    size: u8,
    ghost short: { size ≤ 32 },
}

impl Name {
    ghost use Rattle.chains.specs.NameBytes.{name_bytes};

    pub fn empty() -> Name
        ensures { name_bytes result ≡ [] }
    {
        Name {
            bytes: [0; 32],
            size: 0,
        }
    }

    pub(crate) fn new(bytes: &[u8]) -> Name
        requires { length bytes.now ≤ 32 }
        ensures { take result.size result.bytes ≡ bytes.now }
    {
        let mut padded = [0; 32];
        put(&mut padded, 0, bytes);
        Name {
            bytes: padded,
            size: bytes.len() as u8,
        }
    }

    pub fn bytes(&self) -> &[u8]
        ensures { result.now ≡ take self.now.size self.now.bytes }
    {
        &self.bytes[..self.size as usize]
    }
}

// By the bytes of the name: what stands past them does not count.
impl PartialEq for Name {
    ghost use Rattle.std.proofs.Common.{rules};
    ghost use Rattle.std.specs.Cmp.Rules.{comparing};
    ghost use Rattle.chains.specs.Names.{same};
    ghost use Rattle.chains.specs.NameBytes.{name_bytes};

    ghost eq = { λ a b. same (name_bytes a) (name_bytes b) };

    ghost laws = { Prim.search (comparing, rules) };

    fn eq(&self, other: &Name) -> bool {
        self.bytes() == other.bytes()
    }
}

// For the ArrayVec of the names that were met.
impl Default for Name {
    ghost use Rattle.chains.specs.NameBytes.{name_bytes};

    ghost is_default = { λ n. name_bytes n ≡ [] };

    fn default() -> Name {
        Name::empty()
    }
}

fn is_letter(c: u8) -> bool
    ensures { result ≡ letter c }
{
    c.is_ascii_alphabetic()
}

fn is_name_character(c: u8) -> bool
    ensures { result ≡ name_character c }
{
    is_letter(c) || c.is_ascii_digit() || matches!(c, b'?' | b'_' | b'.')
}

// This and `are_id_characters` are functions of their own because the check proves them so without help, and not within their callers.
fn are_name_characters(bytes: &[u8]) -> bool
    ensures { result ≡ all name_character bytes.now }
{
    bytes.iter().all(|c| is_name_character(*c))
}

fn is_spelled(name: &[u8]) -> bool
    ensures { result ≡ spelled name.now }
{
    match name {
        [first, rest @ ..] => is_letter(*first) && are_name_characters(rest),
        [] => false,
    }
}

// 1 to 32 bytes, a letter first, and not DIRECTORY.
pub fn is_legal_name(name: &[u8]) -> bool
    ensures { result ≡ legal name.now }
{
    is_spelled(name) && name.len() <= NAME_BYTES && name != b"DIRECTORY".as_slice()
}

fn is_id_character(c: u8) -> bool
    ensures { result ≡ id_character c }
{
    (0x20..=0x7E).contains(&c) && c != b';'
}

fn are_id_characters(id: &[u8]) -> bool
    ensures { result ≡ all id_character id.now }
{
    id.iter().all(|c| is_id_character(*c))
}

// 1 to 24 bytes from 20H to 7EH without semicolon.
#[tactic(auto, using(std::proofs::lemmas::Bool::Decides::nat_tests))]
pub fn is_legal_id(id: &[u8]) -> bool
    ensures { result ≡ legal_id id.now }
{
    !id.is_empty() && id.len() <= 24 && are_id_characters(id)
}
