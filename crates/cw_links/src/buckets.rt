//! Cells by height, the least height first.
ghost use Rattle.std.specs.Prelude.{◌≡◌, ℕ, ◌≤◌, ◌<◌, ◌↔◌, length, replicate, slice_set, None, Some, IsNone, IfOk, OnOk, OnErr, IfSome, IfNone};
ghost use Rattle.cw_links.specs.Heights.{height_at, AreOut};

use crate::links::{Links, lowest};
use cw_core::NoMemory;
use std::alloc::Global;
use std::marker::Model;

/// Cells with a height each, or with none.
///
/// Contracts see the list of the cells' heights, as long as there are cells, in which a cell that is not in
/// has `None`. The cells of one height stand in one list (Dial, Algorithm 360, Communications of the ACM 12,
/// 1969), and no cell stands below the floor, which moves up as cells are taken and down where one is put in
/// lower. So `put` is meant to take a constant number of steps, but for the growth of the table of lists to
/// the greatest height, and `take_least` too, but for the heights that it passes; no clause says that. The
/// table takes four bytes for each height up to the greatest.
#[derive(Drop)]
pub struct Buckets {
    links: Links,
    heights: Vec<Option<u32>>,
    floor: usize,
}

impl Model for Buckets {
    ghost use Rattle.std.specs.Prelude.{ℕ, List, Option};
    ghost use Rattle.cw_links.specs.Heights.{AreBuckets};

    ghost Value = { List (Option ℕ) };

    ghost view = { λ b. b.heights.items };

    ghost invariant = { λ b. AreBuckets b.links.lists b.links.cells b.heights.items b.floor };
}

impl Buckets {
    /// So many cells, of which none is in. The one error is want of memory.
    pub fn make(alloc: Global, cells: u32) -> Result<Buckets, NoMemory>
        ensures { IfOk result (λ buckets. buckets ≡ replicate cells None) }
    {
        let links = Links::make(alloc, 0, cells as usize)?;
        let heights = vec![in alloc; None; cells as usize]?;
        Ok(Buckets {
            links,
            heights,
            floor: 0,
        })
    }

    /// Puts the cell in at this height, or moves it there. The one error is want of memory, which changes
    /// nothing.
    pub fn put(&mut self, cell: u32, height: u32) -> Result<(), NoMemory>
        requires { cell < length self.old }
        ensures put { OnOk result (self.new ≡ slice_set self.old cell (Some height)) }
        ensures refused { OnErr result (self.new ≡ self.old) }
    {
        self.links.reach(height as usize + 1)?;
        self.links.move_to(cell, height);
        self.heights[cell as usize] = Some(height);
        self.floor = self.floor.min(height as usize);
        Ok(())
    }

    /// Takes out a cell of the least height, and answers it and that height; None exactly where no cell is in.
    pub fn take_least(&mut self) -> Option<(u32, u32)>
        ensures none { IsNone result ↔ AreOut self.old }
        ensures held { IfSome result (λ taken. height_at self.old taken.0 ≡ Some taken.1) }
        ensures least { IfSome result (λ taken. (cell height : ℕ) → height_at self.old cell ≡ Some height → taken.1 ≤ height) }
        ensures taken { IfSome result (λ taken. self.new ≡ slice_set self.old taken.0 None) }
        ensures left { IfNone result (self.new ≡ self.old) }
    {
        match lowest(&self.links, self.floor) {
            Some((cell, height)) => {
                self.floor = height as usize;
                self.links.unlink(cell);
                self.heights[cell as usize] = None;
                Some((cell, height))
            }
            None => {
                self.floor = self.links.lists();
                None
            }
        }
    }
}
