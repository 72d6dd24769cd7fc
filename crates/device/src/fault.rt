ghost use Rattle.std.specs.Prelude.{◌≡◌};
ghost use Rattle.device.specs.Codes.{code_number, layer_number};

// What a request answers: a completion code, and the layer that it comes from.
#[derive(Clone, Copy, Debug, PartialEq, Eq)]
pub enum Code {
    Done = 0x80,
    InvalidOperation = 0xC1,
    NotReady = 0xC2,
    Protected = 0xC3,
    FileNotFound = 0xC7,
    EndOfFile = 0xC9,
    PointerError = 0xCA,
    FileNotOpen = 0xCB,
    DiskFull = 0xD3,
    NotInDirectory = 0xD4,
    BeginningOfFile = 0xD5,
    AlreadyOpen = 0xD6,
    NotInitialized = 0xE0,
    BadLabel = 0xE1,
    BadName = 0xE2,
    BadEntry = 0xE3,
    UnitInUse = 0xE4,
    BadSize = 0xE5,
    FileExists = 0xE6,
    DirectoryFull = 0xE7,
    ShortBuffer = 0xE8,
    MapWrong = 0xE9,
}

#[derive(Clone, Copy, Debug, PartialEq, Eq)]
pub enum Layer {
    None,
    Device,
    Space,
    Structure,
    Request,
}

#[derive(Clone, Copy, Debug, PartialEq, Eq)]
pub struct Fault {
    pub code: Code,
    pub layer: Layer,
    pub sector: u16,
}

// The sector of a fault or an answer that names none. A number and no Option: this is what a machine is told.
pub const NO_SECTOR: u16 = 0xFFFF;

impl From<Code> for u8 {
    ghost from_gives = { λ code n. n ≡ code_number code };

    fn from(code: Code) -> u8 {
        code as u8
    }
}

impl From<Layer> for u8 {
    ghost from_gives = { λ layer n. n ≡ layer_number layer };

    fn from(layer: Layer) -> u8 {
        layer as u8
    }
}

impl Fault {
    // A fault that names no sector.
    pub fn new(layer: Layer, code: Code) -> Fault
        ensures { result ≡ record { code = code; layer = layer; sector = 0xFFFF } }
    {
        Fault {
            code,
            layer,
            sector: NO_SECTOR,
        }
    }
}
