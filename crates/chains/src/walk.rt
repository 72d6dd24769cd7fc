// Walking along the chain of a file's records.
ghost use Rattle.std.specs.Prelude.{◌≡◌, true, not, ◌&&◌};
ghost use Rattle.freespace.specs.Bits.{bit_of};
ghost use Rattle.chains.specs.Reading.{usable};
ghost use Rattle.chains.specs.Survey.{also, walk_on};
ghost use Rattle.chains.specs.Scans.{Keeps, disk_of};
ghost use Rattle.chains.specs.Walks.{Leads, Steps, Walks};

use crate::fault::structure_fault;
use crate::layout::{NULL_LINK, RESERVED};
use crate::scan::Scan;
use device::{Code, Fault, ReadingDevice};
use freespace::SectorAllocator;

// A sector, and the sector that its forward link names.
#[derive(Clone, Copy, Debug, PartialEq, Eq)]
pub(crate) struct Link {
    pub(crate) from: u16,
    pub(crate) to: u16,
}

impl<D: ReadingDevice> Scan<'_, D> {
    // Notes a sector that a file may use and that was not met before; answers whether it is one.
    pub(crate) fn meet(&mut self, n: u16) -> bool
        ensures value { result ≡ (usable (disk_of self.old.disk) n && not (bit_of self.old.met.bits n)) }
        ensures after { result ≡ true → bit_of self.new.met.bits ≡ also n (bit_of self.old.met.bits) }
        ensures names { self.new.names ≡ self.old.names }
        ensures same { Keeps self.old.disk self.new.disk }
    {
        n >= RESERVED && self.met.give(n)
    }

    // Goes along a link to a sector that must be met for the first time and lead back; answers the link from there.
    #[tactic(auto, unfolding(crate::specs::Survey::walk_on))]
    fn step(&mut self, link: Link) -> Result<Link, Fault>
        requires { Leads (disk_of self.old.disk) link }
        ensures steps { Steps (disk_of self.old.disk) (bit_of self.old.met.bits) link result (bit_of self.new.met.bits) }
        ensures names { self.new.names ≡ self.old.names }
        ensures same { Keeps self.old.disk self.new.disk }
    {
        if !self.meet(link.to) {
            return Err(structure_fault(Code::PointerError, link.from));
        }
        let sector = self.disk.fetch(link.to)?;
        if sector.back != link.from {
            return Err(structure_fault(Code::PointerError, link.to));
        }
        Ok(Link {
            from: link.to,
            to: sector.forward,
        })
    }

    // Goes over as many records as the count says; answers the sector where it ends.
    #[tactic(auto, using(crate::proofs::WalkSteps::walk_more, crate::proofs::WalkSteps::walk_over))]
    pub(crate) fn walk(&mut self, start: Link, count: u16) -> Result<u16, Fault>
        requires { Leads (disk_of self.old.disk) start }
        ensures walks { Walks (walk_on (disk_of self.old.disk) (bit_of self.old.met.bits) start.from count) result (bit_of self.new.met.bits) }
        ensures names { self.new.names ≡ self.old.names }
        ensures same { Keeps self.old.disk self.new.disk }
    {
        let mut link = start;
        for _ in 0..count {
            link = self.step(link)?;
        }
        if link.to != NULL_LINK {
            return Err(structure_fault(Code::PointerError, link.from));
        }
        Ok(link.from)
    }
}
