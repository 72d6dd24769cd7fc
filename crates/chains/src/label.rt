// The label: the disk's ID and its size, as text.
ghost use Rattle.std.specs.Prelude.{◌≡◌, ◌<◌, ◌≤◌, length};
ghost use Rattle.chains.specs.Fresh.{label_sector};
ghost use Rattle.chains.specs.Reading.{line};
ghost use Rattle.chains.specs.Survey.{exact_label};

use crate::bytes::put;
use crate::layout::unlinked;
use crate::name::is_legal_id;
use device::Sector;
use itoa::Buffer;

// The label of a new disk, with links that lead nowhere.
pub(crate) fn label_sector(id: &[u8], size: u16) -> Sector
    requires short { length id.now ≤ 24 }
    requires small { size < 10000 }
    ensures { result ≡ label_sector id.now size }
{
    let mut bytes = [0; 128];
    let id_at = put(&mut bytes, 0, b"ID=");
    let key_at = put(&mut bytes, id_at, id);
    let size_at = put(&mut bytes, key_at, b"\nSECTORS=");
    let mut digits = Buffer::new();
    let end = put(&mut bytes, size_at, digits.format(size).as_bytes());
    put(&mut bytes, end, b"\n");
    unlinked(bytes)
}

// The bytes before the first newline.
fn first_line(bytes: &[u8]) -> &[u8]
    ensures { result.now ≡ line bytes.now }
{
    let end = bytes
        .iter()
        .position(|b| *b == b'\n')
        .unwrap_or(bytes.len());
    &bytes[..end]
}

// Whether these are the bytes of a label for so many sectors.
pub(crate) fn is_exact_label(bytes: &[u8; 128], size: u16) -> bool
    requires { size < 10000 }
    ensures { result ≡ exact_label bytes.now size }
{
    let id = first_line(&bytes[3..]);
    is_legal_id(id) && *bytes == label_sector(id, size).bytes
}
