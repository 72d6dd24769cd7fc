// A set filled anew with the numbers of a stretch.
ghost use Rattle.std.specs.Prelude.{◌≡◌, ℕ, ◌<◌, ◌≤◌, true, false, not, ◌&&◌, if◌then◌else◌, nat_le, nat_lt};
ghost use Rattle.freespace.specs.Bits.{bit_of};

use crate::allocator::SectorAllocator;
use crate::bit_map::BitMap;

// Clears the set for a disk of `sectors` sectors and gives every number from `first` up to its end; refused as `clear` is.
pub fn fill_from<A: SectorAllocator>(allocator: &mut A, first: u16, sectors: u16) -> bool
    ensures value { result ≡ nat_le sectors 2464 }
    ensures spans { A.SectorAllocator.span allocator.new ≡ (if result then sectors else A.SectorAllocator.span allocator.old) }
    ensures after { (m : ℕ) → A.SectorAllocator.member allocator.new m ≡ (if result then nat_le first m && nat_lt m sectors else A.SectorAllocator.member allocator.old m) }
{
    fill_where(allocator, first, sectors, |_| true)
}

// As `fill_from`, but for the numbers that are used.
pub fn fill_unused<A: SectorAllocator>(
    allocator: &mut A,
    first: u16,
    sectors: u16,
    used: &BitMap,
) -> bool
    ensures value { result ≡ nat_le sectors 2464 }
    ensures spans { A.SectorAllocator.span allocator.new ≡ (if result then sectors else A.SectorAllocator.span allocator.old) }
    ensures after { (m : ℕ) → A.SectorAllocator.member allocator.new m ≡ (if result then nat_le first m && (nat_lt m sectors && not (bit_of used.now.bits m)) else A.SectorAllocator.member allocator.old m) }
{
    fill_where(allocator, first, sectors, |n| !used.contains(n))
}

// As `fill_from`, but for the numbers of which the test says no.
// The highest goes in first, so that an ordered list takes each at its head.
fn fill_where<A: SectorAllocator, F: Fn(u16) -> bool>(
    allocator: &mut A,
    first: u16,
    sectors: u16,
    is_free: F,
) -> bool
    requires { F.IsAlwaysCallable is_free }
    ensures value { result ≡ nat_le sectors 2464 }
    ensures spans { A.SectorAllocator.span allocator.new ≡ (if result then sectors else A.SectorAllocator.span allocator.old) }
    ensures within { result ≡ true → (m : ℕ) → first ≤ m → m < sectors → F.post is_free m (A.SectorAllocator.member allocator.new m) }
    ensures outside { result ≡ true → (m : ℕ) → (nat_le first m && nat_lt m sectors) ≡ false → A.SectorAllocator.member allocator.new m ≡ false }
    ensures refused { result ≡ false → (m : ℕ) → A.SectorAllocator.member allocator.new m ≡ A.SectorAllocator.member allocator.old m }
{
    if !allocator.clear(sectors) {
        return false;
    }
    for n in (first..sectors).rev() {
        if is_free(n) {
            allocator.give(n);
        }
    }
    true
}
