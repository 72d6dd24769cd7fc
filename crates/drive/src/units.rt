// The drive's own state: what it knows of its disk, and its sixteen units.
ghost use Rattle.std.specs.Prelude.{◌≡◌, ◌<◌, false, map, length, replicate, slice_get, slice_set};
ghost use Rattle.std.specs.Option.{ok_or};
ghost use Rattle.device.specs.declared.fault.Code.TheVariants.{InvalidOperation};
ghost use Rattle.device.specs.declared.fault.Layer.TheVariants as layer;
ghost use Rattle.rules.specs.Model.{closed, has_name};
ghost use Rattle.drive.specs.Checks.{plain_fault};
ghost use Rattle.drive.specs.Units.{unit_of, is_open, any_open, any_named, kind_from, stepped};

use chains::Name;
use device::{Code, Fault, Layer};

// The ways to open a file.
#[derive(Clone, Copy, Debug, PartialEq, Eq)]
pub enum Kind {
    Input,
    New,
    Output,
    Append,
}

// The kind of this number; any other is an invalid operation.
impl TryFrom<u16> for Kind {
    type Error = Fault;

    ghost try_from_gives = { λ n kind. kind ≡ ok_or (kind_from n) (plain_fault InvalidOperation layer.Request) };

    fn try_from(n: u16) -> Result<Kind, Fault> {
        match n {
            0 => Ok(Kind::Input),
            1 => Ok(Kind::New),
            2 => Ok(Kind::Output),
            3 => Ok(Kind::Append),
            _ => Err(Fault::new(Layer::Request, Code::InvalidOperation)),
        }
    }
}

// A file as a unit has it open: on record `cursor`, whose sector is `current`; at 0 it is on the descriptor.
#[derive(Clone, Copy, Debug, PartialEq, Eq)]
pub struct OpenFile {
    pub(crate) kind: Kind,
    pub(crate) cursor: u16,
    pub(crate) descriptor: u16,
    pub(crate) current: u16,
}

// States by name and no Option, since `step` is one match on a state and a request.
#[derive(Clone, Copy, Debug, PartialEq, Eq)]
pub enum UnitState {
    Closed,
    Open(OpenFile),
}

// What a call asks of the unit that it names.
#[derive(Clone, Copy, Debug, PartialEq, Eq)]
pub enum UnitRequest {
    Open(OpenFile),
    Close,
    Rewind,
}

// The name's bytes lie beside the state, and mean nothing while the unit is closed.
#[derive(Clone, Copy)]
pub struct Unit {
    pub(crate) state: UnitState,
    pub(crate) name: Name,
}

impl Unit {
    pub(crate) fn is_open(&self) -> bool
        ensures { result ≡ is_open (unit_of self.now) }
    {
        matches!(self.state, UnitState::Open(_))
    }

    // The state that a request leads to from the one that the unit is in: a closed unit can only be opened, an open one not again.
    pub(crate) fn step(&self, request: UnitRequest) -> Result<UnitState, Fault>
        ensures { result ≡ stepped self.now.state request }
    {
        match (self.state, request) {
            (UnitState::Closed, UnitRequest::Open(file)) => Ok(UnitState::Open(file)),
            (UnitState::Closed, UnitRequest::Close | UnitRequest::Rewind) => {
                Err(Fault::new(Layer::Request, Code::FileNotOpen))
            }
            (UnitState::Open(_), UnitRequest::Open(_)) => Err(Fault::new(
                Layer::Request,
                Code::UnitInUse,
            )),
            (UnitState::Open(_), UnitRequest::Close) => Ok(UnitState::Closed),
            (UnitState::Open(file), UnitRequest::Rewind) => Ok(UnitState::Open(OpenFile {
                cursor: 0,
                current: file.descriptor,
                ..file
            })),
        }
    }

    fn has_name(&self, name: &[u8]) -> bool
        ensures { result ≡ has_name name.now (unit_of self.now) }
    {
        self.is_open() && name == self.name.bytes()
    }
}

// What is known of a disk that was formatted or read.
#[derive(Clone, Copy, Debug, PartialEq, Eq)]
pub struct KnownDisk {
    // The map on the disk lags behind: a file or record was added or removed since it was written.
    pub(crate) changed: bool,
    pub(crate) files: u16,
}

#[derive(Clone, Copy)]
pub struct State {
    // A drive that knows its disk is initialised.
    pub(crate) disk: Option<KnownDisk>,
    pub(crate) units: [Unit; 16],
}

impl State {
    ghost use Rattle.drive.specs.Erasing.{less_one};
    ghost use Rattle.drive.specs.Parts.{forgotten, started_state};

    // Not initialised, and every unit closed.
    pub(crate) fn new() -> State
        ensures disk { result.disk ≡ None }
        ensures units { map unit_of result.units ≡ replicate 16 closed }
    {
        let unit = Unit {
            state: UnitState::Closed,
            name: Name::empty(),
        };
        State {
            disk: None,
            units: [unit; 16],
        }
    }

    // The disk is new, or was read: it has so many files, and its map is up to date.
    pub(crate) fn start(&mut self, files: u16)
        ensures { self.new ≡ started_state files self.old }
    {
        self.disk = Some(KnownDisk {
            changed: false,
            files,
        });
    }

    // Nothing is known of the disk any more.
    pub(crate) fn forget(&mut self)
        ensures { self.new ≡ forgotten self.old }
    {
        self.disk = None;
    }

    // A file was erased, and the map was saved with it.
    pub(crate) fn lose_file(&mut self)
        ensures { self.new ≡ less_one self.old }
    {
        if let Some(disk) = &mut self.disk {
            disk.changed = false;
            disk.files = disk.files.saturating_sub(1);
        }
    }

    pub(crate) fn some_open(&self) -> bool
        ensures { result ≡ any_open self.now.units }
    {
        self.units.iter().any(Unit::is_open)
    }

    // Whether some unit holds the file of this name.
    pub(crate) fn some_holds(&self, name: &[u8]) -> bool
        ensures { result ≡ any_named name.now self.now.units }
    {
        self.units.iter().any(|unit| unit.has_name(name))
    }

    // Unit u as it stands.
    pub(crate) fn unit(&self, u: u16) -> Unit
        requires below { u < 16 }
        ensures { slice_get self.now.units u ≡ Some result }
    {
        self.units[u as usize]
    }

    // Puts unit u into another state, with the name that it has there.
    pub(crate) fn put_unit(&mut self, u: u16, unit: Unit)
        requires { u < 16 }
        ensures disk { self.new.disk ≡ self.old.disk }
        ensures units { self.new.units ≡ slice_set self.old.units u unit }
    {
        self.units[u as usize] = unit;
    }
}
