//! What a search has found.

ghost use Rattle.std.specs.Prelude.{◌≡◌, ℕ, ◌<◌, ◌≤◌, true, Some, None, cond, length, nat_eq, slice_get, IfSome, IfOk, OnOk};
ghost use Rattle.std.specs.BTreeMap.{is_at};
ghost use Rattle.indexmap.specs.IndexMap.{index_of, insert_index};
ghost use Rattle.cw_audit_store.specs.Stores.{row_at, group_at, entrance_eq, row_key_eq, row_key_cmp, entrance_cmp, is_lower, is_sooner, is_nearer, work};

use crate::row_key::{Entered, Entrance, Hit, Row, RowKey};
use cw_core::NoMemory;
use indexmap::IndexMap;
use std::alloc::Global;

/// The rows and the groups that a search has found, and the nearest violation. A row keeps its number, from 0 in the order in which
/// they were found.
#[derive(Drop)]
pub struct Store {
    pub rows: IndexMap<RowKey, Row>,
    pub groups: IndexMap<Entrance, Entered>,
    pub hit: Option<Hit>,
}

impl Store {
    /// Nothing is found.
    pub fn make(alloc: Global) -> Store
        ensures rows { (q : RowKey) → row_at result q ≡ None }
        ensures groups { (q : Entrance) → group_at result q ≡ None }
        ensures hit { result.hit ≡ None }
    {
        Store {
            rows: IndexMap::new(alloc),
            groups: IndexMap::new(alloc),
            hit: None,
        }
    }

    /// The row of a row key.
    pub fn row(&self, row_key: RowKey) -> Option<Row>
        ensures { result ≡ row_at self.now row_key }
    {
        self.rows.get(&row_key).copied()
    }

    /// The row with a number, and its row key.
    pub fn numbered(&self, number: usize) -> Option<(RowKey, Row)>
        ensures entry { result ≡ slice_get self.now.rows.entries number }
        ensures row { IfSome result (λ (row_key, row). row_at self.now row_key ≡ Some row) }
    {
        let (row_key, row) = self.rows.get_index(number)?;
        Some((*row_key, *row))
    }

    /// The group of an entrance.
    pub fn group(&self, entrance: Entrance) -> Option<Entered>
        ensures { result ≡ group_at self.now entrance }
    {
        self.groups.get(&entrance).copied()
    }

    /// The group of an entrance. It is looked up only where the group with this number is another's.
    pub fn group_by(&self, number: u32, entrance: Entrance) -> Option<Entered>
        ensures { result ≡ group_at self.now entrance }
    {
        match self.numbered_group(number as usize) {
            Some((found, entered)) if found == entrance => Some(entered),
            Some(_) | None => self.group(entrance),
        }
    }

    /// The group with a number, and its entrance.
    pub fn numbered_group(&self, number: usize) -> Option<(Entrance, Entered)>
        ensures entry { result ≡ slice_get self.now.groups.entries number }
        ensures group { IfSome result (λ (entrance, entered). group_at self.now entrance ≡ Some entered) }
    {
        let (entrance, entered) = self.groups.get_index(number)?;
        Some((*entrance, *entered))
    }

    /// The number of an entrance's group.
    pub fn group_number(&self, entrance: Entrance) -> Option<usize>
        ensures { result ≡ index_of entrance_eq self.now.groups entrance }
    {
        self.groups.get_index_of(&entrance)
    }

    /// How many groups there are.
    pub fn group_count(&self) -> usize
        ensures { result ≡ length self.now.groups.entries }
    {
        self.groups.len()
    }

    /// How many rows there are.
    pub fn count(&self) -> usize
        ensures { result ≡ length self.now.rows.entries }
    {
        self.rows.len()
    }

    /// Sets the row of a row key, and gives its number. Each other row keeps its number. The one error is want of memory.
    pub fn put_row(&mut self, row_key: RowKey, row: Row) -> Result<usize, NoMemory>
        requires { row.inside ≤ 65537 }
        ensures number { IfOk result (λ number. number ≡ insert_index row_key_eq self.old.rows row_key) }
        ensures numbers { IfOk result (λ number. (n : ℕ) → slice_get self.new.rows.entries n ≡ cond (nat_eq n number) (Some (row_key, row)) (slice_get self.old.rows.entries n)) }
        ensures rows { OnOk result ((q : RowKey) → row_at self.new q ≡ cond (is_at (row_key_cmp row_key) q) (Some row) (row_at self.old q)) }
        ensures groups { self.new.groups ≡ self.old.groups }
        ensures hit { self.new.hit ≡ self.old.hit }
        ensures less { OnOk result (is_lower row.inside (row_at self.old row_key) ≡ true → work self.new < work self.old) }
    {
        let _ = self.rows.len();
        let _ = self.groups.len();
        let (number, _) = self.rows.insert_full(row_key, row)?;
        Ok(number)
    }

    /// Sets the group of an entrance. The one error is want of memory.
    pub fn put_group(&mut self, entrance: Entrance, entered: Entered) -> Result<(), NoMemory>
        requires { entered.reach ≤ 65537 }
        ensures groups { OnOk result ((q : Entrance) → group_at self.new q ≡ cond (is_at (entrance_cmp entrance) q) (Some entered) (group_at self.old q)) }
        ensures rows { self.new.rows ≡ self.old.rows }
        ensures hit { self.new.hit ≡ self.old.hit }
        ensures less { OnOk result (is_sooner entered.reach (group_at self.old entrance) ≡ true → work self.new < work self.old) }
    {
        let _ = self.rows.len();
        let _ = self.groups.len();
        self.groups.insert(entrance, entered)?;
        Ok(())
    }

    /// Sets the nearest violation.
    pub fn put_hit(&mut self, hit: Hit)
        requires { hit.distance ≤ 65537 }
        ensures hit { self.new.hit ≡ Some hit }
        ensures rows { self.new.rows ≡ self.old.rows }
        ensures groups { self.new.groups ≡ self.old.groups }
        ensures less { is_nearer hit.distance self.old.hit ≡ true → work self.new < work self.old }
    {
        let _ = self.rows.len();
        let _ = self.groups.len();
        self.hit = Some(hit);
    }
}
