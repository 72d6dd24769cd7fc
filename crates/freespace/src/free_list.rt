ghost use Rattle.std.specs.Prelude.{◌≡◌, ℕ, ◌+◌, ◌<◌, ◌≤◌, true, false, IfSome, if◌then◌else◌, nat_eq};
ghost use Rattle.freespace.specs.Links.{link, linked, Chained};
ghost use Rattle.freespace.specs.Sets.{counted, without, Picks};
ghost use Rattle.std.proofs.Common.{rules};

use crate::allocator::{LARGEST_SPAN, SectorAllocator};

// A table that chains the members upwards, beside the span and the number of members.
// Place 0 is the head and place n + 1 stands for number n. Each place of the chain names the next,
// the last one the place past the span; 0 is at a place that is not in the chain.
// Places of an array and no boxes: it chains the free sectors as a disk would, and no call allocates.
#[derive(Drop)]
pub struct FreeList {
    next: [u16; 2465],
    sectors: u16,
    members: u16,
    ghost small: { sectors ≤ 2464 },
    ghost chain: { Chained (link next) sectors },
    ghost tally: { members ≡ counted (λ n. linked next n) sectors },
}

impl FreeList {
    // The empty set, of span 0.
    pub fn new() -> FreeList
        ensures spans { result.sectors ≡ 0 }
        ensures empty { (n : ℕ) → linked result.next n ≡ false }
    {
        FreeList::spanning(0)
    }

    // The empty set, of any span.
    fn spanning(sectors: u16) -> FreeList
        requires { sectors ≤ 2464 }
        ensures spans { result.sectors ≡ sectors }
        ensures empty { (n : ℕ) → linked result.next n ≡ false }
    {
        let mut next = no_links();
        next[0] = sectors + 1;
        FreeList {
            next,
            sectors,
            members: 0,
        }
    }

    fn has(&self, n: u16) -> bool
        requires { n < 2464 }
        ensures { result ≡ linked self.now.next n }
    {
        self.next[n as usize + 1] > 0
    }

    fn is_empty(&self) -> bool
        ensures none { result ≡ true → (n : ℕ) → linked self.now.next n ≡ false }
        ensures some { result ≡ false → link self.now.next 0 ≤ self.now.sectors }
    {
        self.next[0] > self.sectors
    }

    // The last place of the chain before that of n, which is not in it; the head counts as one. It follows links, so no range counts it.
    fn place_before(&self, n: u16) -> u16
        requires { (n < self.now.sectors) × (linked self.now.next n ≡ false) }
        ensures low { result ≤ n }
        ensures high { n + 1 < link self.now.next result }
    {
        let mut at = 0;
        while self.next[at as usize] <= n {
            at = self.next[at as usize];
        }
        at
    }

    // Adds n between a place of the chain and the next.
    fn link_after(&mut self, before: u16, n: u16)
        requires { (before ≤ n) × (n + 1 < link self.old.next before) }
        ensures spans { self.new.sectors ≡ self.old.sectors }
        ensures after { (m : ℕ) → linked self.new.next m ≡ (if nat_eq m n then true else linked self.old.next m) }
    {
        self.next[n as usize + 1] = self.next[before as usize];
        self.next[before as usize] = n + 1;
        self.members += 1;
    }

    // Removes the number whose place follows one of the chain.
    fn unlink_after(&mut self, before: u16) -> u16
        requires { (0 < link self.old.next before) × (link self.old.next before ≤ self.old.sectors) }
        ensures member { linked self.old.next result ≡ true }
        ensures passed { (m : ℕ) → before ≤ m → m < result → linked self.old.next m ≡ false }
        ensures spans { self.new.sectors ≡ self.old.sectors }
        ensures after { (m : ℕ) → linked self.new.next m ≡ (if nat_eq m result then false else linked self.old.next m) }
    {
        let gone = self.next[before as usize];
        self.next[before as usize] = self.next[gone as usize];
        self.next[gone as usize] = 0;
        self.members -= 1;
        gone - 1
    }
}

impl SectorAllocator for FreeList {
    ghost member = { λ k n. linked k.next n };

    ghost span = { λ k. k.sectors };

    ghost below = { Prim.search rules };

    ghost small = { λ k. k.small };

    fn clear(&mut self, sectors: u16) -> bool {
        if sectors > LARGEST_SPAN {
            return false;
        }
        *self = FreeList::spanning(sectors);
        true
    }

    fn give(&mut self, n: u16) -> bool {
        if n >= self.sectors || self.has(n) {
            return false;
        }
        let before = self.place_before(n);
        self.link_after(before, n);
        true
    }

    // Removes the lowest member.
    fn remove_one(&mut self) -> Option<u16>
        ensures picks { Picks result (linked self.old.next) }
        ensures spans { self.new.sectors ≡ self.old.sectors }
        ensures after { (m : ℕ) → linked self.new.next m ≡ without result (linked self.old.next) m }
        ensures lowest { IfSome result (λ n. (m : ℕ) → m < n → linked self.old.next m ≡ false) }
    {
        if self.is_empty() {
            return None;
        }
        Some(self.unlink_after(0))
    }

    fn contains(&self, n: u16) -> bool {
        n < self.sectors && self.has(n)
    }

    fn count(&self) -> u16 {
        self.members
    }
}

// Over any N, so that no proof has the links written out.
fn no_links<const N: usize>() -> [u16; N]
    ensures { (p : ℕ) → link result p ≡ 0 }
{
    [0; N]
}
