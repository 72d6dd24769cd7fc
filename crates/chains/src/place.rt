// A place of the directory: a file's name and the sector of its descriptor.
ghost use Rattle.std.specs.Prelude.{◌≡◌, ◌<◌, ◌≤◌, true, false, ◌&&◌, ◌∷◌, ◌++◌, length, replicate, MatchOption, slice_index};
ghost use Rattle.std.specs.Simd.{first_chunks};
ghost use Rattle.chains.specs.Names.{legal};
ghost use Rattle.chains.specs.Layout.{padded, word};
ghost use Rattle.chains.specs.NameBytes.{name_bytes};
ghost use Rattle.chains.specs.Survey.{address_in, name_in, well_formed_place};

use crate::bytes::{put, put_word, word_at};
use crate::layout::NAME_BYTES;
use crate::name::{Name, is_legal_name};

#[derive(Drop)]
pub(crate) struct Place {
    pub(crate) name: Name,
    pub(crate) at: u16,
}

// The name's length, the name in 32 bytes, the descriptor's sector, five zeros.
pub(crate) fn place_bytes(name: &[u8], at: u16) -> [u8; 40]
    requires { length name.now ≤ 32 }
    ensures { result ≡ (length name.now ∷ (padded 32 name.now ++ (word at ++ replicate 5 0))) }
{
    let mut bytes = [0; 40];
    put(&mut bytes, 0, &[name.len() as u8]);
    put(&mut bytes, 1, name);
    put_word(&mut bytes, 33, at);
    bytes
}

// The three places in the bytes of their sector.
pub(crate) fn places_in(bytes: &[u8; 128]) -> &[[u8; 40]]
    ensures { result.now ≡ first_chunks 40 3 bytes.now }
{
    let (places, _) = bytes.as_chunks();
    places
}

// The name in the bytes of a place, if there is room for one so long.
pub(crate) fn name_in(bytes: &[u8; 40]) -> Option<&[u8]>
    ensures { MatchOption result (32 < slice_index bytes.now 0) (λ n. (slice_index bytes.now 0 ≤ 32) × (n.now ≡ name_in bytes.now)) }
{
    let size = usize::from(bytes[0]);
    if size > NAME_BYTES {
        return None;
    }
    Some(&bytes[1..1 + size])
}

// The place that 40 bytes are, if its name is legal. An Option and no TryFrom: there is no error to tell of.
pub(crate) fn parse_place(bytes: &[u8; 40]) -> Option<Place>
    ensures { MatchOption result ((well_formed_place bytes.now && legal (name_in bytes.now)) ≡ false) (λ p. ((well_formed_place bytes.now && legal (name_in bytes.now)) ≡ true) × (name_bytes p.name ≡ name_in bytes.now) × (p.at ≡ address_in bytes.now)) }
{
    let name = name_in(bytes)?;
    if !is_legal_name(name) {
        return None;
    }
    let at = word_at(bytes, 33);
    if *bytes != place_bytes(name, at) {
        return None;
    }
    Some(Place {
        name: Name::new(name),
        at,
    })
}
