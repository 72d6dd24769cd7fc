// Exchanges served, one and many.
ghost use Rattle.std.specs.Prelude.{◌≡◌};
ghost use Rattle.drive.specs.Exchanges.{Replies, ServesExchange, ServesAll, RunsIfFresh, RunsThrough, SameRequests};

use crate::answer::Answer;
use crate::drive::Drive;
use crate::request::{Exchange, Request, Usage};
use device::WritingDevice;
use freespace::SectorAllocator;

impl<D: WritingDevice, A: SectorAllocator> Drive<D, A> {
    // The call that a request asks for. Requests are kept and shown too, so they are values to match and no closures.
    fn reply(&mut self, request: &Request) -> (Answer, Option<Usage>)
        ensures { Replies D.ReadingDevice A.SectorAllocator request.now self.old result.0 result.1 self.new }
    {
        match request {
            Request::Format { id } => (self.format(id), None),
            Request::Door { open } => (self.door(*open), None),
            Request::Tab { on } => (self.tab(*on), None),
            Request::Status => {
                let (answer, usage) = self.status();
                (answer, Some(usage))
            }
        }
    }

    // Serves one exchange in place.
    pub fn serve(&mut self, exchange: &mut Exchange)
        ensures served { ServesExchange D.ReadingDevice A.SectorAllocator self.old exchange.old exchange.new self.new }
        ensures request { exchange.new.request ≡ exchange.old.request }
    {
        let (answer, reported) = self.reply(&exchange.request);
        exchange.answer = answer;
        exchange.reported = reported;
    }

    // Serves exchanges one after another.
    pub fn serve_all(&mut self, exchanges: &mut [Exchange])
        ensures served { ServesAll D.ReadingDevice A.SectorAllocator self.old exchanges.old exchanges.new self.new }
        ensures requests { SameRequests exchanges.old exchanges.new }
        ensures runs { RunsIfFresh D.ReadingDevice A.SectorAllocator self.old exchanges.old exchanges.new self.new }
    {
        self.serve_each(exchanges);
    }

    // The loop. `serve_all` hands on to it and has no proof file, so that the check itself tells where it serves too many.
    fn serve_each(&mut self, exchanges: &mut [Exchange])
        ensures served { ServesAll D.ReadingDevice A.SectorAllocator self.old exchanges.old exchanges.new self.new }
        ensures requests { SameRequests exchanges.old exchanges.new }
        ensures runs { RunsIfFresh D.ReadingDevice A.SectorAllocator self.old exchanges.old exchanges.new self.new }
    {
        for exchange in exchanges.iter_mut() {
            self.serve(exchange);
        }
    }
}

// Serves any list of exchanges from a new drive, which it hands back.
pub fn run<D: WritingDevice, A: SectorAllocator>(
    device: D,
    allocator: A,
    exchanges: &mut [Exchange],
) -> Drive<D, A>
    ensures ran { RunsThrough D.ReadingDevice A.SectorAllocator device allocator exchanges.old exchanges.new result }
    ensures requests { SameRequests exchanges.old exchanges.new }
{
    let mut drive = Drive::new(device, allocator);
    drive.serve_all(exchanges);
    drive
}
