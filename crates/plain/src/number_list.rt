// An allocator over a vector of the free numbers, in no order.
ghost use Rattle.std.specs.Prelude.{◌≡◌, ℕ, ◌<◌, ◌≤◌, true, [], IfOk, vec_len, vec_capacity};
ghost use Rattle.freespace.specs.Sets.{counted, without, Picks};
ghost use Rattle.plain.specs.Members.{listed};

use freespace::{LARGEST_SPAN, SectorAllocator};
use std::alloc::{AllocError, Global};

#[derive(Drop)]
pub struct NumberList {
    members: Vec<u16>,
    sectors: u16,
    ghost room: { 2464 ≤ vec_capacity members },
    ghost small: { sectors ≤ 2464 },
    ghost few: { vec_len members ≤ sectors },
    ghost below: { (n : ℕ) → listed members.items n ≡ true → n < sectors },
    ghost tally: { vec_len members ≡ counted (λ n. listed members.items n) sectors },
}

impl NumberList {
    // The empty set, of span 0, with room for all the numbers of the largest span.
    pub fn new(heap: Global) -> Result<NumberList, AllocError>
        ensures { IfOk result (λ l. (l.sectors ≡ 0) × (l.members.items ≡ [])) }
    {
        let members = Vec::with_capacity(heap, LARGEST_SPAN as usize)?;
        Ok(NumberList {
            members,
            sectors: 0,
        })
    }

    // Any member will do; the last one is at hand.
    fn remove_last(&mut self) -> Option<u16>
        ensures picks { Picks result (listed self.old.members.items) }
        ensures spans { self.new.sectors ≡ self.old.sectors }
        ensures after { (m : ℕ) → listed self.new.members.items m ≡ without result (listed self.old.members.items) m }
    {
        self.members.pop()
    }
}

impl SectorAllocator for NumberList {
    ghost member = { λ k n. listed k.members.items n };

    ghost span = { λ k. k.sectors };

    ghost below = { λ k. k.below };

    ghost small = { λ k. k.small };

    fn clear(&mut self, sectors: u16) -> bool {
        if sectors > LARGEST_SPAN {
            return false;
        }
        self.members.clear();
        self.sectors = sectors;
        true
    }

    fn give(&mut self, n: u16) -> bool {
        if n >= self.sectors || self.members.contains(&n) {
            return false;
        }
        // Its place was reserved when the list was made.
        self.members.push_reserved(n);
        true
    }

    fn remove_one(&mut self) -> Option<u16> {
        self.remove_last()
    }

    fn contains(&self, n: u16) -> bool {
        self.members.contains(&n)
    }

    fn count(&self) -> u16 {
        self.members.len() as u16
    }
}
