// What a request answers.
ghost use Rattle.std.specs.Prelude.{◌≡◌};
ghost use Rattle.device.specs.declared.fault.Code.TheVariants.{Done};
ghost use Rattle.device.specs.declared.fault.Layer.TheVariants as layer;
ghost use Rattle.drive.specs.Answers.{answer_of, from_fault};

use device::{Code, Fault, Layer, NO_SECTOR};

// A completion code, how far the work went, and where a fault arose.
#[derive(Clone, Copy, Debug, PartialEq, Eq)]
pub struct Answer {
    pub code: Code,
    pub length: u16,
    pub layer: Layer,
    pub sector: u16,
}

impl Answer {
    pub(crate) fn done(length: u16) -> Answer
        ensures { result ≡ record { code = Done; length = length; layer = layer.None; sector = 0xFFFF } }
    {
        Answer {
            code: Code::Done,
            length,
            layer: Layer::None,
            sector: NO_SECTOR,
        }
    }
}

// A fault from below, with its layer and sector as they came.
impl From<Fault> for Answer {
    ghost from_gives = { λ fault answer. answer ≡ from_fault fault };

    fn from(fault: Fault) -> Answer {
        Answer {
            code: fault.code,
            length: 0,
            layer: fault.layer,
            sector: fault.sector,
        }
    }
}

// A call that was done answers 80; one that was not, its fault.
impl From<Result<(), Fault>> for Answer {
    ghost from_gives = { λ outcome answer. answer ≡ answer_of outcome };

    fn from(outcome: Result<(), Fault>) -> Answer {
        match outcome {
            Ok(()) => Answer::done(0),
            Err(fault) => fault.into(),
        }
    }
}
