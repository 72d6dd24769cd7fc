// Requests, and the exchanges in which they are asked and answered.
ghost use Rattle.std.specs.Prelude.{◌≡◌};
ghost use Rattle.device.specs.declared.fault.Code.TheVariants.{InvalidOperation};
ghost use Rattle.device.specs.declared.fault.Layer.TheVariants as layer;

use crate::answer::Answer;
use device::{Code, Fault, Layer};

#[derive(Drop)]
pub enum Request {
    Format { id: Vec<u8> },
    Door { open: bool },
    Tab { on: bool },
    Status,
}

// The numbers that STATUS tells: free sectors, all others, files.
#[derive(Clone, Copy, Debug, Default, PartialEq, Eq)]
pub struct Usage {
    pub free: u16,
    pub used: u16,
    pub files: u16,
}

// A request with its buffer, and what it was answered: served in place. Only STATUS reports numbers beside its answer.
#[derive(Drop)]
pub struct Exchange {
    pub request: Request,
    pub buffer: Vec<u8>,
    pub answer: Answer,
    pub reported: Option<Usage>,
}

impl Exchange {
    // A request that is not served yet: its answer says that nothing was done.
    pub fn new(request: Request, buffer: Vec<u8>) -> Exchange
        ensures { result ≡ record { request = request; buffer = buffer; answer = record { code = InvalidOperation; length = 0; layer = layer.Request; sector = 0xFFFF }; reported = None } }
    {
        Exchange {
            request,
            buffer,
            answer: Fault::new(Layer::Request, Code::InvalidOperation).into(),
            reported: None,
        }
    }
}
