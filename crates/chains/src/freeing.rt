// Giving the sectors of a file's records back to free space.
ghost use Rattle.std.specs.Prelude.{◌≡◌, ℕ, false, not, ◌&&◌, ◌||◌, map, length, is_ok, Some, None, Ok, nat_lt, slice_index_or};
ghost use Rattle.device.specs.Device.{fetched};
ghost use Rattle.freespace.specs.Sets.{with_number};
ghost use Rattle.chains.specs.Layout.{Layout, Entry, first_of, member};
ghost use Rattle.chains.specs.Survey.{next};
ghost use Rattle.chains.specs.Changes.{LaidOut};

use crate::layout::NULL_LINK;
use device::{Fault, ReadingDevice};
use freespace::SectorAllocator;

// Gives back the sector n of a record, unless it is free already, and answers the record's forward link.
fn free_record<D: ReadingDevice, A: SectorAllocator>(
    device: &mut D,
    allocator: &mut A,
    n: u16,
) -> Result<u16, Fault>
    ensures same { D.ReadingDevice.medium device.new ≡ D.ReadingDevice.medium device.old }
    ensures spans { A.SectorAllocator.span allocator.new ≡ A.SectorAllocator.span allocator.old }
    ensures value { result ≡ next (fetched (D.ReadingDevice.medium device.old) n) (λ s. Ok s.forward) }
    ensures after { (k : ℕ) → A.SectorAllocator.member allocator.new k ≡ with_number (is_ok result && (nat_lt n (A.SectorAllocator.span allocator.old) && not (A.SectorAllocator.member allocator.old n))) n (A.SectorAllocator.member allocator.old) k }
{
    let record = device.read(n)?;
    allocator.give(n);
    Ok(record.forward)
}

// Gives back the sectors of `count` records from `first` on, found by their forward links; the disk stays as it is.
pub fn free_chain<D: ReadingDevice, A: SectorAllocator>(
    device: &mut D,
    allocator: &mut A,
    first: u16,
    count: u16,
) -> Result<(), Fault>
    ensures same { D.ReadingDevice.medium device.new ≡ D.ReadingDevice.medium device.old }
    ensures spans { A.SectorAllocator.span allocator.new ≡ A.SectorAllocator.span allocator.old }
    ensures freed { (d : Layout) (f : Entry) (p : ℕ) → LaidOut d (D.ReadingDevice.medium device.old).sectors → (D.ReadingDevice.medium device.old).door ≡ false → slice_index_or d.places p None ≡ Some f → first ≡ first_of f.records → count ≡ length f.records → A.SectorAllocator.span allocator.old ≡ d.size → (result ≡ Ok tt) × ((n : ℕ) → A.SectorAllocator.member allocator.new n ≡ (A.SectorAllocator.member allocator.old n || member n (map (λ q. q.at) f.records))) }
{
    let mut here = first;
    for _ in 0..count {
        if here == NULL_LINK {
            break;
        }
        here = free_record(device, allocator, here)?;
    }
    Ok(())
}
