ghost use Rattle.std.specs.Prelude.{◌≡◌, ℕ, ◌<◌, ◌≤◌, true, false, if◌then◌else◌, nat_eq};
ghost use Rattle.freespace.specs.Bits.{bit_of};
ghost use Rattle.freespace.specs.Sets.{counted, Picks};

use crate::allocator::{LARGEST_SPAN, SectorAllocator};
use crate::bits::{bit, no_bytes, with_bit, without_bit};

// A bit for each number, eight to a byte, beside the span and the number of members.
#[derive(Drop)]
pub struct BitMap {
    bits: [u8; 308],
    sectors: u16,
    members: u16,
    ghost small: { sectors ≤ 2464 },
    ghost below: { (n : ℕ) → bit_of bits n ≡ true → n < sectors },
    ghost tally: { members ≡ counted (λ n. bit_of bits n) sectors },
}

impl BitMap {
    // The empty set, of span 0.
    pub fn new() -> BitMap
        ensures spans { result.sectors ≡ 0 }
        ensures empty { (n : ℕ) → bit_of result.bits n ≡ false }
    {
        BitMap {
            bits: no_bytes(),
            sectors: 0,
            members: 0,
        }
    }

    fn has_bit(&self, n: u16) -> bool
        requires { n < 2464 }
        ensures { result ≡ bit_of self.now.bits n }
    {
        bit(self.bits[(n / 8) as usize], n % 8)
    }

    // A member, if there is one.
    fn first(&self) -> Option<u16>
        ensures { Picks result (bit_of self.now.bits) }
    {
        (0..self.sectors).find(|n| self.has_bit(*n))
    }

    // Adds a number that is not there.
    fn insert(&mut self, n: u16)
        requires { (n < self.old.sectors) × (bit_of self.old.bits n ≡ false) }
        ensures spans { self.new.sectors ≡ self.old.sectors }
        ensures after { (m : ℕ) → bit_of self.new.bits m ≡ (if nat_eq m n then true else bit_of self.old.bits m) }
    {
        let at = (n / 8) as usize;
        self.bits[at] = with_bit(self.bits[at], n % 8);
        self.members += 1;
    }

    // Removes a member.
    fn remove(&mut self, n: u16)
        requires { bit_of self.old.bits n ≡ true }
        ensures spans { self.new.sectors ≡ self.old.sectors }
        ensures after { (m : ℕ) → bit_of self.new.bits m ≡ (if nat_eq m n then false else bit_of self.old.bits m) }
    {
        let at = (n / 8) as usize;
        self.bits[at] = without_bit(self.bits[at], n % 8);
        self.members -= 1;
    }
}

impl SectorAllocator for BitMap {
    ghost member = { λ k n. bit_of k.bits n };

    ghost span = { λ k. k.sectors };

    ghost below = { λ k. k.below };

    ghost small = { λ k. k.small };

    fn clear(&mut self, sectors: u16) -> bool {
        if sectors > LARGEST_SPAN {
            return false;
        }
        self.bits = no_bytes();
        self.sectors = sectors;
        self.members = 0;
        true
    }

    fn give(&mut self, n: u16) -> bool {
        if n >= self.sectors || self.has_bit(n) {
            return false;
        }
        self.insert(n);
        true
    }

    fn remove_one(&mut self) -> Option<u16> {
        let n = self.first()?;
        self.remove(n);
        Some(n)
    }

    fn contains(&self, n: u16) -> bool {
        n < self.sectors && self.has_bit(n)
    }

    fn count(&self) -> u16 {
        self.members
    }
}
