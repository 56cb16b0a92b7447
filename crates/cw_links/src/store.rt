//! Heights and keys of the cells of indices, and of the few indices that are links their keys, where they go and for how long.

ghost use Rattle.std.specs.Prelude.{◌≡◌, ℕ, List, true, ◌+◌, ◌*◌, ◌<◌, ◌≤◌, [], ◌∷◌, ◌++◌, length, slice_get, slice_index, Contains, OnOk, OnErr, IfOk, IfSome, vec_len, vec_capacity};
ghost use Rattle.cw_links.specs.Lists.{list_at, AreApart};
ghost use Rattle.cw_links.specs.Flags.{is_flagged, number, rank};
ghost use Rattle.cw_links.specs.Keys.{asked_with, lowered};
ghost use Rattle.cw_links.specs.Stores.{IsBlank, IsKnown, IsAt, Pushes, PushesPlain, PopsIndex, Ties, with_asked, with_due, with_lists};

use crate::callers::Callers;
use crate::keys::Keys;
use crate::marks::Marks;
use crate::popped::Popped;
use cw_core::NoMemory;
use cw_core::limits::CELLS;
use std::alloc::Global;
use std::marker::Model;

/// What a solver keeps by indices. Each index has a cell, which has a height, waits for one or neither, and few have a link beside it.
///
/// Contracts see the flags of the indices that are links, and a list for each of what is kept, as long as there are indices: `heights`
/// and `asked` have the heights and the keys of cells; `due`, `to` and `waves` have the keys of links, the lists in which they stand,
/// and their numbers of moves, 0 at all other indices. In `lists` a link has the number of its rank among the links.
#[derive(Drop)]
pub struct Store {
    flags: Marks,
    keys: Keys,
    callers: Callers,
    waves: Vec<u32>,
}

/// A link: its index, the number of the list in which it stands, and its number of moves.
#[derive(Clone, Copy, Drop)]
pub struct Link {
    pub index: usize,
    pub list: u32,
    pub moves: u32,
}

impl Model for Store {
    ghost use Rattle.cw_links.specs.Stores.{Stored, AreStored, stored};

    ghost Value = { Stored };

    ghost view = { λ s. stored s.flags s.keys s.callers s.waves.items };

    ghost invariant = { λ s. AreStored s.flags s.keys s.callers s.waves.items };
}

impl Store {
    /// No indices, and two lists.
    pub fn make(alloc: Global) -> Result<Store, NoMemory>
        ensures { IfOk result IsBlank }
    {
        Ok(Store {
            flags: Marks::make(alloc),
            keys: Keys::make(alloc)?,
            callers: Callers::make(alloc)?,
            waves: Vec::new(alloc),
        })
    }

    /// How many indices there are.
    #[inline(always)]
    pub fn indices(&self) -> usize
        ensures { result ≡ length self.now.flags }
    {
        self.flags.len()
    }

    /// The height of the cell at an index, 0 where it has none.
    #[inline(always)]
    pub fn height(&self, index: usize) -> u32
        requires { index < length self.now.flags }
        ensures { result ≡ slice_index self.now.heights index }
    {
        self.keys.height(index)
    }

    /// The key of the link at an index.
    pub fn due(&self, index: usize) -> u32
        requires { index < length self.now.flags }
        ensures { result ≡ slice_index self.now.due index }
    {
        if self.flags.is_flagged(index) {
            self.keys.due(self.flags.rank(index) as usize)
        } else {
            0
        }
    }

    /// The number of the list in which the link at an index stands.
    pub fn to(&self, index: usize) -> u32
        requires { index < length self.now.flags }
        ensures { result ≡ slice_index self.now.to index }
    {
        if self.flags.is_flagged(index) {
            self.callers.to(self.flags.rank(index) as usize)
        } else {
            0
        }
    }

    /// The number of moves of the link at an index.
    pub fn wave(&self, index: usize) -> u32
        requires { index < length self.now.flags }
        ensures { result ≡ slice_index self.now.waves index }
    {
        if self.flags.is_flagged(index) {
            self.waves[self.flags.rank(index) as usize]
        } else {
            0
        }
    }

    /// Has the cell at an index wait for a height, under twice that, unless it has a height or waits for a lower one. The one error is
    /// want of memory, which changes nothing.
    #[inline(always)]
    pub fn ask_cell(&mut self, index: usize, height: u32) -> Result<(), NoMemory>
        requires within { index < length self.old.flags }
        requires some { 0 < height }
        requires few { height ≤ 2147483647 }
        ensures asked { OnOk result (self.new ≡ with_asked self.old (asked_with self.old.heights self.old.asked index (2 * height))) }
        ensures refused { OnErr result (self.new ≡ self.old) }
    {
        self.keys.ask_cell(index, height)?;
        Ok(())
    }

    /// Has the link at an index wait under a key, unless it waits under a lower one. The one error is want of memory, which changes
    /// nothing.
    pub fn ask_link(&mut self, index: usize, key: u32) -> Result<(), NoMemory>
        requires flagged { is_flagged self.old.flags index ≡ true }
        requires some { 0 < key }
        ensures asked { OnOk result (self.new ≡ with_due self.old (lowered self.old.due index key)) }
        ensures refused { OnErr result (self.new ≡ self.old) }
    {
        let link = self.flags.rank(index) as usize;
        self.keys.ask_link(link, key)?;
        Ok(())
    }

    /// Takes what waits under the least key; of a cell and of a link it has the index. A cell has half its key as its height then.
    pub fn pop(&mut self) -> Popped
        ensures { PopsIndex self.old self.new result }
    {
        let popped = self.keys.pop();
        at_index(&self.flags, popped)
    }

    /// Puts the link at an index into a list, with a number of moves.
    pub fn tie(&mut self, index: usize, list: u32, moves: u32)
        requires flagged { is_flagged self.old.flags index ≡ true }
        requires list { list < length self.old.lists }
        ensures { Ties self.old self.new index list moves }
    {
        let link = self.flags.rank(index) as usize;
        self.callers.tie(link, list);
        self.waves[link] = moves;
    }

    /// Makes so many lists, if there are fewer. The one error is want of memory.
    pub fn reach(&mut self, alloc: Global, lists: u32) -> Result<(), NoMemory>
        requires few { lists ≤ 8388608 }
        ensures enough { OnOk result (lists ≤ length self.new.lists) }
        ensures more { length self.old.lists ≤ length self.new.lists }
        ensures rest { self.new ≡ with_lists self.old self.new.lists }
    {
        let _ = alloc;
        self.callers.reach(lists)?;
        Ok(())
    }

    /// Adds an index, which is a link or not. Its cell has no height, its cell and its link don't wait, and the link stands in the list 0.
    /// The one error is want of memory, which changes nothing.
    pub fn push(&mut self, flag: bool) -> Result<(), NoMemory>
        requires few { length self.old.flags < CELLS }
        ensures pushed { OnOk result (Pushes self.old self.new flag) }
        ensures refused { OnErr result (self.new ≡ self.old) }
    {
        if flag {
            self.push_link()
        } else {
            self.push_plain(1)
        }
    }

    /// Adds so many indices, of which none is a link, has a height or waits. The one error is want of memory, which changes nothing.
    pub fn push_plain(&mut self, many: u32) -> Result<(), NoMemory>
        requires few { length self.old.flags + many ≤ CELLS }
        ensures pushed { OnOk result (PushesPlain self.old self.new many) }
        ensures refused { OnErr result (self.new ≡ self.old) }
    {
        self.keys.reserve_cells(many as usize)?;
        self.flags.push_plain(many)?;
        self.keys.push_cells(many as usize);
        Ok(())
    }

    /// Adds an index that is a link, as `push` does.
    fn push_link(&mut self) -> Result<(), NoMemory>
        requires few { length self.old.flags < CELLS }
        ensures pushed { OnOk result (Pushes self.old self.new true) }
        ensures refused { OnErr result (self.new ≡ self.old) }
    {
        self.keys.reserve_cells(1)?;
        self.keys.reserve_link()?;
        self.callers.reserve()?;
        self.waves.reserve(1)?;
        self.flags.push()?;
        self.keys.push_cells(1);
        add_link(&mut self.keys, &mut self.callers, &mut self.waves);
        Ok(())
    }

    /// The first link of a list; None exactly where the list is empty. Each link stands in its list.
    pub fn first(&self, list: u32) -> Option<u32>
        requires { list < length self.now.lists }
        ensures first { result ≡ slice_get (list_at self.now.lists list) 0 }
        ensures known { IfSome result (λ link. link < number self.now.flags) }
        ensures apart { AreApart self.now.lists (number self.now.flags) }
        ensures there { (index : ℕ) → is_flagged self.now.flags index ≡ true
            → Contains (list_at self.now.lists (slice_index self.now.to index)) (rank self.now.flags index) }
    {
        self.callers.first(list)
    }

    /// The link after this one in its list; None where it is the last.
    pub fn next(&self, link: u32) -> Option<u32>
        requires { link < number self.now.flags }
        ensures within { (list : ℕ) (front back : List ℕ) → list_at self.now.lists list ≡ front ++ link ∷ back → result ≡ slice_get back 0 }
        ensures known { IfSome result (λ next. next < number self.now.flags) }
        ensures apart { AreApart self.now.lists (number self.now.flags) }
    {
        self.callers.next(link)
    }

    /// The index of a link.
    pub fn index(&self, link: u32) -> usize
        requires { link < number self.now.flags }
        ensures flagged { is_flagged self.now.flags result ≡ true }
        ensures rank { rank self.now.flags result ≡ link }
    {
        self.flags.index(link)
    }

    /// The index of a link, and what is kept there of it.
    #[inline(always)]
    pub fn linked(&self, link: u32) -> Link
        requires { link < number self.now.flags }
        ensures flagged { is_flagged self.now.flags result.index ≡ true }
        ensures rank { rank self.now.flags result.index ≡ link }
        ensures list { result.list ≡ slice_index self.now.to result.index }
        ensures moves { result.moves ≡ slice_index self.now.waves result.index }
    {
        Link {
            index: self.flags.index(link),
            list: self.callers.to(link as usize),
            moves: self.waves[link as usize],
        }
    }

    /// The heights of the cells by index. It takes no memory.
    pub fn into_heights(self) -> Vec<u32>
        ensures { result.items ≡ self.heights }
    {
        let Store {
            flags: _,
            keys,
            callers: _,
            waves: _,
        } = self;
        keys.into_heights()
    }
}

/// What is taken, with the index in the stead of a link's number.
fn at_index(flags: &Marks, popped: Popped) -> Popped
    requires few { length flags.now ≤ CELLS }
    requires known { IsKnown flags.now popped }
    ensures { IsAt flags.now popped result }
{
    match popped {
        Popped::Nothing => Popped::Nothing,
        Popped::Cell(index, key) => Popped::Cell(index, key),
        Popped::Link(link, key) => Popped::Link(flags.index(link as u32), key),
    }
}

/// Adds a link.
fn add_link(keys: &mut Keys, callers: &mut Callers, waves: &mut Vec<u32>)
    requires few { length callers.old.to < CELLS }
    requires keys { 0 < keys.old.spare_links }
    requires callers { 0 < callers.old.spare }
    requires waves { vec_len waves.old < vec_capacity waves.old }
    ensures heights { keys.new.heights ≡ keys.old.heights }
    ensures asked { keys.new.asked ≡ keys.old.asked }
    ensures due { keys.new.due ≡ keys.old.due ++ 0 ∷ [] }
    ensures to { callers.new.to ≡ callers.old.to ++ 0 ∷ [] }
    ensures lists { length callers.new.lists ≡ length callers.old.lists }
    ensures waves { waves.new.items ≡ waves.old.items ++ 0 ∷ [] }
{
    keys.push_link();
    callers.push();
    // There is room, so the push is not refused.
    let _ = waves.push(0);
}
