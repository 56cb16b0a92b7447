//! Elements that wait under keys, those under the two that are used most apart.

ghost use Rattle.std.specs.Prelude.{◌≡◌, ◌≢◌, ◌⊎◌, ℕ, ◌<◌, ◌≤◌, ◌++◌, [], length, drop, reverse, OnOk, OnErr, IfErr, IfSome, IfNone};
ghost use Rattle.cw_links.specs.Lists.{list_at};
ghost use Rattle.cw_links.specs.Nearest.{Advances, AreNear, IsApart, IsFirst, IsSetAside, all_stacks};
ghost use Rattle.cw_links.specs.Queues.{AreAlike, AreNone, HasLower, Puts, Takes};

use crate::later::Later;
use cw_core::NoMemory;
use std::alloc::Global;
use std::marker::Model;
use std::mem::swap;

/// What waits now, under one key, and soon, under a greater one; and a key below which nothing waits later.
#[derive(Drop)]
pub(crate) struct Near {
    present: Vec<u32>,
    present_key: u32,
    soon: Vec<u32>,
    soon_key: u32,
    floor: u32,
}

/// Where an element belongs that is to wait under a key.
#[derive(Clone, Copy, Drop)]
pub(crate) enum Apart {
    Now,
    Soon,
    /// Soon, where nothing else does yet.
    Next,
    Later,
    /// Before what waits now.
    Before,
}

/// Elements that wait under keys, of which none is 0. An element may wait more than once.
///
/// Contracts see the list of the stacks, one for each key from 0 on, as of a `Queue`. Where what is put mostly waits under the key
/// that comes next, as that of the next height, it stands in one of two vectors, four bytes each, and no list is touched; a `Later`
/// has the rest. Under a key lower than that of what waits now something begins anew, as the small heights of a late context: then
/// the queue takes over what stands in the vectors, and these serve the lower keys.
#[derive(Drop)]
pub struct NearQueue {
    near: Near,
    later: Later,
}

impl Model for NearQueue {
    ghost use Rattle.std.specs.Prelude.{ℕ, List};
    ghost use Rattle.cw_links.specs.Nearest.{AreNear, all_stacks};

    ghost Value = { List (List ℕ) };

    ghost view = { λ q. all_stacks q.near q.later };

    ghost invariant = { λ q. AreNear q.near q.later };
}

/// Where an element belongs that is to wait under a key.
#[inline(always)]
fn part_of(near: &Near, key: u32) -> Apart
    ensures { IsApart near.now key result }
{
    if key == near.soon_key {
        if !near.soon.is_empty() {
            return Apart::Soon;
        }
    }
    if key == near.present_key {
        return Apart::Now;
    }
    if key < near.present_key {
        return Apart::Before;
    }
    if near.soon.is_empty() {
        Apart::Next
    } else {
        Apart::Later
    }
}

/// Has elements wait later, under a key, in their order. The one error is want of memory, with the number of those that wait then.
fn put_all(elements: &[u32], key: u32, later: &mut Later) -> Result<(), usize>
    requires { 0 < length elements.now → 0 < key }
    ensures all { OnOk result (list_at later.new key ≡ reverse elements.now ++ list_at later.old key) }
    ensures within { IfErr result (λ many. many ≤ length elements.now) }
    ensures some { IfErr result (λ many. reverse (drop many elements.now) ++ list_at later.new key ≡ reverse elements.now ++ list_at later.old key) }
    ensures others { (k : ℕ) → k ≢ key → list_at later.new k ≡ list_at later.old k }
{
    for index in 0..elements.len() {
        match later.put(elements[index], key) {
            Ok(()) => {}
            Err(_) => return Err(index),
        }
    }
    Ok(())
}

/// Has what stands in a vector wait later, under a key, in its order. The one error is want of memory: what doesn't wait then is
/// left in the vector.
fn move_aside(elements: &mut Vec<u32>, key: u32, later: &mut Later) -> Result<(), NoMemory>
    requires { 0 < length elements.old.items → 0 < key }
    ensures here { reverse elements.new.items ++ list_at later.new key ≡ reverse elements.old.items ++ list_at later.old key }
    ensures others { (k : ℕ) → k ≢ key → list_at later.new k ≡ list_at later.old k }
    ensures fewer { length elements.new.items ≤ length elements.old.items }
    ensures none { OnOk result (length elements.new.items ≡ 0) }
{
    match put_all(elements.as_slice(), key, later) {
        Ok(()) => {
            elements.clear();
            Ok(())
        }
        Err(many) => {
            let left = elements.len() - many;
            elements.rotate_left(many);
            elements.truncate(left);
            Err(NoMemory)
        }
    }
}

/// Has what waits now and soon wait later. The one error is want of memory; as before it the same waits under each key.
#[inline(never)]
fn set_aside(near: &mut Near, later: &mut Later) -> Result<(), NoMemory>
    requires { AreNear near.old later.old }
    ensures kept { AreNear near.new later.new }
    ensures same { AreAlike (all_stacks near.old later.old) (all_stacks near.new later.new) }
    ensures aside { OnOk result (IsSetAside near.new) }
{
    near.floor = near.floor.min(near.present_key);
    near.floor = near.floor.min(near.soon_key);
    move_aside(&mut near.present, near.present_key, later)?;
    move_aside(&mut near.soon, near.soon_key, later)?;
    near.present_key = 0;
    Ok(())
}

/// Has what waits soon wait now, where nothing else does.
#[inline(always)]
fn advance(near: &mut Near)
    ensures { Advances near.old near.new }
{
    if !near.present.is_empty() {
        return;
    }
    if near.soon.is_empty() {
        return;
    }
    swap(&mut near.present, &mut near.soon);
    near.present_key = near.soon_key;
}

/// Whether what waits now has the least key. Then the floor is that key at least.
#[inline(always)]
fn is_first(near: &mut Near, later: &mut Later) -> bool
    requires { AreNear near.old later.old }
    ensures first { IsFirst near.old near.new later.old result }
    ensures later { later.new ≡ later.old }
{
    if near.present.is_empty() {
        return false;
    }
    if near.present_key <= near.floor {
        return true;
    }
    if !later.is_clear_below(near.present_key) {
        return false;
    }
    near.floor = near.present_key;
    true
}

/// Has an element wait under a key.
#[inline(always)]
fn put_in(near: &mut Near, later: &mut Later, element: u32, key: u32) -> Result<(), NoMemory>
    requires some { 0 < key }
    requires kept { AreNear near.old later.old }
    ensures put { OnOk result (Puts (all_stacks near.old later.old) (all_stacks near.new later.new) element key) }
    ensures kept { AreNear near.new later.new }
    ensures refused { OnErr result (AreAlike (all_stacks near.old later.old) (all_stacks near.new later.new)) }
{
    match part_of(near, key) {
        Apart::Now => {
            near.present.push(element)?;
            Ok(())
        }
        Apart::Soon => {
            near.soon.push(element)?;
            Ok(())
        }
        Apart::Next => {
            near.soon.push(element)?;
            near.soon_key = key;
            Ok(())
        }
        Apart::Later => {
            later.put(element, key)?;
            near.floor = near.floor.min(key);
            Ok(())
        }
        Apart::Before => {
            set_aside(near, later)?;
            near.present.push(element)?;
            near.present_key = key;
            Ok(())
        }
    }
}

/// Takes an element that waits now, with its key, the least one. Two numbers of 32 bits would be packed into one and taken apart again
/// for each element that is taken, so the element is wider than it has to be.
#[inline(always)]
fn take_now(near: &mut Near, later: &Later) -> Option<(usize, u32)>
    requires kept { AreNear near.old later.now }
    requires some { 0 < length near.old.present.items }
    requires least { near.old.present_key ≤ near.old.floor }
    ensures kept { AreNear near.new later.now }
    ensures taken { IfSome result (λ taken. Takes (all_stacks near.old later.now) (all_stacks near.new later.now) taken.0 taken.1) }
    ensures few { IfSome result (λ taken. taken.0 ≤ 4294967295) }
    ensures some { IfNone result ⊥ }
{
    let _ = later;
    match near.present.pop() {
        None => None,
        Some(element) => Some((element as usize, near.present_key)),
    }
}

/// Takes an element that waits later, with its key, where what waits now has no lower one.
fn take_later(near: &mut Near, later: &mut Later) -> Option<(usize, u32)>
    requires kept { AreNear near.old later.old }
    requires alone { length near.old.present.items ≡ 0 → length near.old.soon.items ≡ 0 }
    requires lower { (length near.old.present.items ≡ 0) ⊎ HasLower later.old near.old.present_key }
    ensures kept { AreNear near.new later.new }
    ensures taken { IfSome result (λ taken. Takes (all_stacks near.old later.old) (all_stacks near.new later.new) taken.0 taken.1) }
    ensures none { IfNone result (AreNone (all_stacks near.old later.old)) }
    ensures left { IfNone result (all_stacks near.new later.new ≡ all_stacks near.old later.old) }
    ensures empty { IfNone result (length near.old.present.items ≡ 0) }
    ensures few { IfSome result (λ taken. taken.0 ≤ 4294967295) }
{
    match later.take() {
        None => None,
        Some((element, key)) => {
            near.floor = key;
            Some((element as usize, key))
        }
    }
}

/// Takes an element from under the least key, with that key.
#[inline(always)]
fn take_in(near: &mut Near, later: &mut Later) -> Option<(usize, u32)>
    requires { AreNear near.old later.old }
    ensures kept { AreNear near.new later.new }
    ensures taken { IfSome result (λ taken. Takes (all_stacks near.old later.old) (all_stacks near.new later.new) taken.0 taken.1) }
    ensures none { IfNone result (AreNone (all_stacks near.old later.old)) }
    ensures left { IfNone result (all_stacks near.new later.new ≡ all_stacks near.old later.old) }
    ensures few { IfSome result (λ taken. taken.0 ≤ 4294967295) }
{
    advance(near);
    if is_first(near, later) {
        return take_now(near, later);
    }
    take_later(near, later)
}

impl NearQueue {
    ghost use Rattle.std.specs.Prelude.{◌≡◌, ◌<◌, ◌↔◌, IsNone, IfOk, OnOk, OnErr, IfSome, IfNone};
    ghost use Rattle.cw_links.specs.Queues.{AreAlike, AreNone, Puts, Takes};

    /// Nothing waits. The one error is want of memory.
    pub fn make(alloc: Global) -> Result<NearQueue, NoMemory>
        ensures { IfOk result AreNone }
    {
        Ok(NearQueue {
            near: Near {
                present: Vec::new(alloc),
                present_key: 0,
                soon: Vec::new(alloc),
                soon_key: 0,
                floor: 0,
            },
            later: Later::make(alloc)?,
        })
    }

    /// Has the element wait under the key, in front of what waits there. The one error is want of memory; as before it the same
    /// waits under each key.
    #[inline(always)]
    pub fn put(&mut self, element: u32, key: u32) -> Result<(), NoMemory>
        requires { 0 < key }
        ensures put { OnOk result (Puts self.old self.new element key) }
        ensures refused { OnErr result (AreAlike self.old self.new) }
    {
        put_in(&mut self.near, &mut self.later, element, key)
    }

    /// Takes the first element under the least key, and answers it and that key; None exactly where nothing waits.
    #[inline(always)]
    pub fn take(&mut self) -> Option<(u32, u32)>
        ensures none { IsNone result ↔ AreNone self.old }
        ensures taken { IfSome result (λ taken. Takes self.old self.new taken.0 taken.1) }
        ensures left { IfNone result (self.new ≡ self.old) }
    {
        match self.take_wide() {
            None => None,
            Some((element, key)) => Some((element as u32, key)),
        }
    }

    /// The same as `take`.
    #[inline(always)]
    pub(crate) fn take_wide(&mut self) -> Option<(usize, u32)>
        ensures none { IsNone result ↔ AreNone self.old }
        ensures taken { IfSome result (λ taken. Takes self.old self.new taken.0 taken.1) }
        ensures left { IfNone result (self.new ≡ self.old) }
        ensures few { IfSome result (λ taken. taken.0 ≤ 4294967295) }
    {
        take_in(&mut self.near, &mut self.later)
    }
}
