//! A node's cache: blocks in sets of a few ways, each with its mode and line.
//!
//! The set of a block is its number among all blocks of its home, modulo the number of sets. A fill
//! uses the lowest empty way of the set; a full set throws out its ways in turn. What contracts see is
//! a finite map from blocks to mode, line and way, with the next way of each set (`specs/Cache`). The
//! layers above see less: what a look-up answers after each call is a law (`laws`), so that nobody
//! above names a set or a way.
//!
//! Below stand the names of blocks, and lines; above it a node and what it answers as an owner. All
//! memory is taken by [`Cache::make`]. A look-up compares the names in the ways of one set and touches
//! nothing else; lines are changed where they lie.
#![tactic(auto)]

ghost use Rattle.std.specs.Prelude.{◌≡◌, ◌≤◌, ◌<◌, ◌+◌, ◌*◌, ◌↔◌, IfOk, IsTrue, IsSome, Some, None, option_map};
ghost use Rattle.og_cache.specs.Cache.{is_way_of as way_holds};

pub mod laws;
#[cfg(test)]
mod tests;

use og_base::{Block, NoMemory};
use og_line::{Line, Mode};
use std::alloc::Global;
use std::marker::Model;

/// A block that a cache holds.
#[derive(Clone, Copy, PartialEq)]
pub struct CachedBlock {
    pub block: Block,
    pub mode: Mode,
    pub line: Line,
}

/// A node's cache.
#[derive(Drop)]
pub struct Cache {
    sets: u16,
    ways: u8,
    // What each way holds, set after set.
    places: Vec<Option<CachedBlock>>,
    // Of each set, the way that it throws out next.
    next: Vec<u8>,
}

impl Model for Cache {
    ghost use Rattle.og_cache.specs.Cache.{Cached, IsCache};

    ghost Value = { Cached };

    ghost view = { λ c. record { sets = c.sets; ways = c.ways; places = c.places.items; next = c.next.items } };

    ghost invariant = { λ c. IsCache (record { sets = c.sets; ways = c.ways; places = c.places.items; next = c.next.items }) };
}

/// Whether a way holds the block.
fn is_way_of(way: &Option<CachedBlock>, block: Block) -> bool
    ensures { result ≡ way_holds block way.now }
{
    match way {
        None => false,
        Some(copy) => copy.block == block,
    }
}

impl Cache {
    ghost use Rattle.std.specs.Option.{option_copied};
    ghost use Rattle.std.specs.Borrow.{sem};
    ghost use Rattle.og_cache.specs.Lending.{LendsLine};
    ghost use Rattle.og_cache.specs.Cache.{IsCache, set_of, ways_in, ways_for, way_of, empty_way_of, copy_of, look_of, mode_of, line_of, empty_cache, filled, with_way, with_mode, without, thrown_out, reserved, has_room};

    /// An empty cache of so many sets, each of so many ways. It takes all memory that the cache will ever need.
    #[tactic(auto, unfolding(crate::specs::Cache::empty_cache))]
    pub fn make(alloc: Global, sets: u16, ways: u8) -> Result<Cache, NoMemory>
        requires has_sets { 1 ≤ sets }
        requires has_ways { 1 ≤ ways }
        ensures { IfOk result (λ cache. cache ≡ empty_cache sets ways) }
    {
        let places = vec![in alloc; None; usize::from(sets) * usize::from(ways)]?;
        let next = vec![in alloc; 0; usize::from(sets)]?;
        Ok(Cache {
            sets,
            ways,
            places,
            next,
        })
    }

    /// Each block stands in its set, and in no two ways: what the laws on look-ups ask of a cache.
    pub fn stays_sound(&self)
        ensures { IsCache self.now }
    {
        let _sets = self.sets;
        let _ = &self.places;
    }

    /// The mode of a block, None exactly where it isn't there.
    #[tactic(auto, unfolding(crate::specs::Cache::look_of))]
    pub fn look(&self, block: Block) -> Option<Mode>
        ensures mode { result ≡ mode_of self.now block }
        ensures there { IsSome result ↔ IsSome (look_of self.now block) }
        ensures absent { (result ≡ None) ↔ (look_of self.now block ≡ None) }
        ensures sound { IsCache self.now }
    {
        self.copy_of(block).map(|copy| copy.mode)
    }

    /// The line of a block that is there.
    #[tactic(auto, unfolding(crate::specs::Cache::look_of))]
    pub fn line(&self, block: Block) -> &Line
        requires { IsSome (look_of self.now block) }
        ensures { line_of self.now block ≡ Some result.now }
    {
        match self.copy_of(block) {
            Some(copy) => &copy.line,
            None => unreachable!(),
        }
    }

    /// The line of a block that is there, to be changed in place.
    #[tactic(auto, unfolding(crate::specs::Cache::look_of, crate::specs::Cache::with_line))]
    pub fn line_mut(&mut self, block: Block) -> &mut Line
        requires { IsSome (look_of self.old block) }
        ensures* writes_back { sem 𝓛 (LendsLine self.entry block result) }
        ensures value { line_of self.old block ≡ Some result.now }
    {
        let way = self.way_of(block).unwrap();
        let place = self.first_way(block) + way;
        match &mut self.places[place] {
            Some(copy) => &mut copy.line,
            None => unreachable!(),
        }
    }

    /// The block that [`Cache::reserve_way`] would throw out, and its mode.
    pub fn victim_of(&self, block: Block) -> Option<(Block, Mode)>
        ensures { result ≡ option_map (λ out. (out.block, out.mode)) (thrown_out self.now block) }
    {
        self.thrown_out(block).map(|out| (out.block, out.mode))
    }

    /// Whether the set of a block has an empty way.
    #[tactic(auto, unfolding(crate::specs::Cache::has_room))]
    pub fn has_room(&self, block: Block) -> bool
        ensures { result ≡ has_room self.now block }
    {
        self.empty_way_of(block).is_some()
    }

    /// Makes room for a block, and gives what was thrown out for it. None, and nothing changes, exactly where the block is
    /// there or its set has an empty way.
    #[tactic(auto, unfolding(crate::specs::Cache::reserved))]
    pub fn reserve_way(&mut self, block: Block) -> Option<(Block, Mode, Line)>
        ensures thrown { result ≡ option_map (λ out. (out.block, out.mode, out.line)) (thrown_out self.old block) }
        ensures left { self.new ≡ reserved self.old block }
    {
        let out = *self.thrown_out(block)?;
        let set = self.set_of(block);
        let next = self.next[set];
        let place = set * usize::from(self.ways) + usize::from(next);
        self.places[place] = None;
        self.next[set] = (next + 1) % self.ways;
        Some((out.block, out.mode, out.line))
    }

    /// Puts a block into the lowest empty way of its set.
    #[tactic(auto, unfolding(crate::specs::Cache::filled))]
    pub fn fill(&mut self, block: Block, mode: Mode, line: &Line)
        requires absent { look_of self.old block ≡ None }
        requires room { IsTrue (has_room self.old block) }
        ensures { self.new ≡ filled self.old block mode line.now }
    {
        if let Some(way) = self.empty_way_of(block) {
            self.put(
                block,
                way,
                Some(CachedBlock {
                    block,
                    mode,
                    line: *line,
                }),
            );
        }
    }

    /// Changes the mode of a block that is there.
    #[tactic(auto, unfolding(crate::specs::Cache::with_mode))]
    pub fn set_mode(&mut self, block: Block, mode: Mode)
        requires { IsSome (look_of self.old block) }
        ensures { self.new ≡ with_mode self.old block mode }
    {
        if let Some(way) = self.way_of(block) {
            let place = self.first_way(block) + way;
            if let Some(copy) = &mut self.places[place] {
                copy.mode = mode;
            }
        }
    }

    /// Takes a block out, and gives its mode and line. None, and nothing changes, exactly where it isn't there.
    #[tactic(auto, unfolding(crate::specs::Cache::without, crate::specs::Cache::look_of))]
    pub fn take_out(&mut self, block: Block) -> Option<(Mode, Line)>
        ensures taken { result ≡ look_of self.old block }
        ensures left { self.new ≡ without self.old block }
    {
        let way = self.way_of(block)?;
        let copy = self.ways_for(block)[way];
        self.put(block, way, None);
        copy.map(|copy| (copy.mode, copy.line))
    }

    /// The set of a block.
    fn set_of(&self, block: Block) -> usize
        ensures value { result ≡ set_of self.now block }
        ensures inside { result < self.now.sets }
    {
        let number = u32::from(block.frame.index) * 32 + u32::from(block.number);
        (number % u32::from(self.sets)) as usize
    }

    /// The number of the block's first way among all ways.
    fn first_way(&self, block: Block) -> usize
        ensures value { result ≡ set_of self.now block * self.now.ways }
        ensures inside { result + self.now.ways ≤ self.now.sets * self.now.ways }
        ensures sound { IsCache self.now }
    {
        self.set_of(block) * usize::from(self.ways)
    }

    /// The ways that may hold the block.
    fn ways_for(&self, block: Block) -> &[Option<CachedBlock>]
        ensures value { result.now ≡ ways_for self.now block }
        ensures sound { IsCache self.now }
    {
        let first = self.first_way(block);
        let ways = usize::from(self.ways);
        &self.places[first..first + ways]
    }

    /// The block's way.
    fn way_of(&self, block: Block) -> Option<usize>
        ensures value { result ≡ way_of self.now block }
        ensures sound { IsCache self.now }
    {
        self.ways_for(block)
            .iter()
            .position(|way| is_way_of(way, block))
    }

    /// The lowest empty way of the block's set.
    fn empty_way_of(&self, block: Block) -> Option<usize>
        ensures value { result ≡ empty_way_of self.now block }
        ensures sound { IsCache self.now }
    {
        self.ways_for(block).iter().position(|way| way.is_none())
    }

    /// The block's copy.
    fn copy_of(&self, block: Block) -> Option<&CachedBlock>
        ensures value { option_copied result ≡ copy_of self.now block }
        ensures sound { IsCache self.now }
    {
        let way = self.way_of(block)?;
        self.ways_for(block)[way].as_ref()
    }

    // What a reserve of a way for the block would throw out.
    #[tactic(auto, unfolding(crate::specs::Cache::thrown_out))]
    fn thrown_out(&self, block: Block) -> Option<&CachedBlock>
        ensures { option_copied result ≡ thrown_out self.now block }
    {
        if self.way_of(block).is_some() || self.empty_way_of(block).is_some() {
            return None;
        }
        let next = self.next[self.set_of(block)];
        self.ways_for(block)[usize::from(next)].as_ref()
    }

    /// Puts this into a way of the block's set.
    fn put(&mut self, block: Block, way: usize, held: Option<CachedBlock>)
        requires inside { way < self.old.ways }
        requires kept { IsCache (with_way self.old (set_of self.old block) way held) }
        ensures { self.new ≡ with_way self.old (set_of self.old block) way held }
    {
        let place = self.first_way(block) + way;
        self.places[place] = held;
    }
}
