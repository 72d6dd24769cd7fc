// Faults of the disk's structure.
ghost use Rattle.std.specs.Prelude.{◌≡◌};
ghost use Rattle.chains.specs.Survey.{structure_fault};

use device::{Code, Fault, Layer};

// A fault in what stands on the disk.
pub(crate) fn structure_fault(code: Code, sector: u16) -> Fault
    ensures { result ≡ structure_fault code sector }
{
    Fault {
        code,
        layer: Layer::Structure,
        sector,
    }
}
