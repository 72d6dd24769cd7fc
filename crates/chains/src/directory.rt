// The 32 sectors of the directory, linked in a row.
ghost use Rattle.std.specs.Prelude.{◌≡◌, ◌<◌};
ghost use Rattle.chains.specs.Layout.{directory_back, directory_forward};
ghost use Rattle.chains.specs.Fresh.{empty_directory_sector};
ghost use Rattle.chains.specs.Survey.{directory_framed};

use crate::bytes::zero_from;
use crate::layout::{DIRECTORY_SECTORS, DIRECTORY_START, NULL_LINK};
use device::Sector;

// The links of the directory's sector i.
pub(crate) fn directory_back(i: u16) -> u16
    requires { i < 32 }
    ensures { result ≡ directory_back i }
{
    if i == 0 {
        NULL_LINK
    } else {
        DIRECTORY_START + i - 1
    }
}

pub(crate) fn directory_forward(i: u16) -> u16
    requires { i < 32 }
    ensures { result ≡ directory_forward i }
{
    if i + 1 == DIRECTORY_SECTORS {
        NULL_LINK
    } else {
        DIRECTORY_START + i + 1
    }
}

// The directory's sector i on a disk with no file: places of zeros.
pub(crate) fn empty_directory_sector(i: u16) -> Sector
    requires { i < 32 }
    ensures { result ≡ empty_directory_sector i }
{
    Sector {
        bytes: [0; 128],
        back: directory_back(i),
        forward: directory_forward(i),
    }
}

// Whether a sector can be the directory's sector i, whatever its places hold.
pub(crate) fn is_directory_frame(i: u16, sector: &Sector) -> bool
    requires { i < 32 }
    ensures { result ≡ directory_framed i sector.now }
{
    sector.back == directory_back(i)
        && sector.forward == directory_forward(i)
        && zero_from(&sector.bytes, 120)
}
