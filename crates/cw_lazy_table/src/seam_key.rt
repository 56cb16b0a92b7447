//! Keys by what stands at their positions, in the order of rows.

ghost use Rattle.std.specs.Prelude.{◌≡◌, true, Some, map, option_map, filter_map, slice_get, Contains, IfOk, OnOk};
ghost use Rattle.cw_fixpoint.specs.Closures.{Exactly};
ghost use Rattle.cw_product.specs.Moves.{IsPosition};
ghost use Rattle.cw_product.specs.Product.{game_of};
ghost use Rattle.cw_lazy_table.specs.Kinds.{Asked, Label, Open, Close, Call};
ghost use Rattle.cw_lazy_table.specs.SeamKeys.{part_in, seam_key, seam_key_of, memory_of, IsPut, AreOf, ComeByKind, AreByKind, put_seam_key, return_cmp, return_of, put_return};

use crate::key::Key;
use crate::near::Places;
use cw_core::{PosId, StateId};
use cw_fixpoint::ascending;
use cw_game::Spot;
use cw_product::Game;
use std::alloc::{AllocError, Global};

/// A key where something with rows stands: by seam, part (the stage of what is asked, 1 for a split call, else 0),
/// state, promise (by its number) and position.
#[derive(Clone, Copy, Drop, PartialEq, Eq, PartialOrd, Ord)]
pub(crate) struct SeamKey {
    pub(crate) seam: u32,
    pub(crate) part: u8,
    pub(crate) state: u16,
    pub(crate) promise: usize,
    pub(crate) pos: u32,
}

/// Keys by the kind of what stands at their positions.
#[derive(Drop)]
pub(crate) struct ByKind {
    pub(crate) asked: Vec<SeamKey>,
    pub(crate) labels: Vec<SeamKey>,
    pub(crate) opens: Vec<SeamKey>,
    pub(crate) closes: Vec<SeamKey>,
    pub(crate) calls: Vec<SeamKey>,
}

/// Whether a memory stands at an index.
#[inline(always)]
pub(crate) fn stands(mems: &[(StateId, usize)], at: usize, memory: (StateId, usize)) -> bool
    ensures { result ≡ true → slice_get mems.now at ≡ Some memory }
{
    match mems.get(at) {
        None => false,
        Some(there) => *there == memory,
    }
}

/// Puts a memory, but where it stands at its place already, and tells where it stands.
#[inline(always)]
fn put_memory(
    memories: &mut Vec<(StateId, usize)>,
    places: &mut Places,
    memory: (StateId, usize),
) -> Result<(), AllocError>
    ensures { OnOk result (IsPut memories.old.items memory memories.new.items) }
{
    let near = places.guess(memory.0.0, memory.1);
    if stands(memories, near, memory) {
        return Ok(());
    }
    places.tell(memory.0.0, memory.1, memories.len());
    memories.push(memory)?;
    Ok(())
}

/// The states and the promises of keys, by where each of so many states and promises was put.
#[inline(never)]
pub(crate) fn memories_of(
    alloc: Global,
    states: usize,
    promises: usize,
    keys: &[Key],
) -> Result<Vec<(StateId, usize)>, AllocError>
    ensures { IfOk result (λ v. AreOf (map memory_of keys.now) v.items) }
{
    let mut memories = Vec::new(alloc);
    let mut places = Places::make(alloc, states, promises)?;
    for key in keys {
        put_memory(
            &mut memories,
            &mut places,
            (StateId(key.state), key.promise),
        )?;
    }
    Ok(memories)
}

/// A key where this stands.
fn there(key: &Key, seam: u32, part: u8) -> SeamKey
    ensures { result ≡ seam_key key.now (seam, part) }
{
    SeamKey {
        seam,
        part,
        state: key.state,
        promise: key.promise,
        pos: key.pos,
    }
}

/// A key by the call that stands at its position, where one does.
fn call_at(game: &Game, key: &Key) -> Option<SeamKey>
    requires { IsPosition (game_of game.now) key.now.pos }
    ensures { result ≡ seam_key_of (game_of game.now) Call key.now }
{
    match game.spot(PosId(key.pos)) {
        Spot::Call(seam, _, _) => Some(there(key, seam, 0)),
        Spot::SplitCall(seam, _, _) => Some(there(key, seam, 1)),
        _ => None,
    }
}

/// Appends a key to those of the kind of what stands at its position, where that has rows.
fn put_by_kind(spot: Spot, key: &Key, lists: &mut ByKind) -> Result<(), AllocError>
    ensures asked { OnOk result (lists.new.asked.items ≡ put_seam_key lists.old.asked.items (option_map (seam_key key.now) (part_in Asked spot))) }
    ensures labels { OnOk result (lists.new.labels.items ≡ put_seam_key lists.old.labels.items (option_map (seam_key key.now) (part_in Label spot))) }
    ensures opens { OnOk result (lists.new.opens.items ≡ put_seam_key lists.old.opens.items (option_map (seam_key key.now) (part_in Open spot))) }
    ensures closes { OnOk result (lists.new.closes.items ≡ put_seam_key lists.old.closes.items (option_map (seam_key key.now) (part_in Close spot))) }
    ensures calls { OnOk result (lists.new.calls.items ≡ put_seam_key lists.old.calls.items (option_map (seam_key key.now) (part_in Call spot))) }
{
    match spot {
        Spot::Asked(seam, stage, _) => {
            lists.asked.push(there(key, seam, stage))?;
            Ok(())
        }
        Spot::Label(seam, _, _) => {
            lists.labels.push(there(key, seam, 0))?;
            Ok(())
        }
        Spot::Open(seam, _, _) => {
            lists.opens.push(there(key, seam, 0))?;
            Ok(())
        }
        Spot::Close(seam, _, _) => {
            lists.closes.push(there(key, seam, 0))?;
            Ok(())
        }
        Spot::Call(seam, _, _) => {
            lists.calls.push(there(key, seam, 0))?;
            Ok(())
        }
        Spot::SplitCall(seam, _, _) => {
            lists.calls.push(there(key, seam, 1))?;
            Ok(())
        }
        Spot::Visit(_, _, _) | Spot::Step(_) | Spot::Branch(_, _) | Spot::Exit(_) => Ok(()),
    }
}

/// Keys by kind, as they come.
#[inline(never)]
fn by_kind(alloc: Global, game: &Game, keys: &[Key]) -> Result<ByKind, AllocError>
    requires { (k : Key) → Contains keys.now k → IsPosition (game_of game.now) k.pos }
    ensures { IfOk result (ComeByKind (game_of game.now) keys.now) }
{
    let mut lists = ByKind {
        asked: Vec::new(alloc),
        labels: Vec::new(alloc),
        opens: Vec::new(alloc),
        closes: Vec::new(alloc),
        calls: Vec::new(alloc),
    };
    for key in keys {
        put_by_kind(game.spot(PosId(key.pos)), key, &mut lists)?;
    }
    Ok(lists)
}

/// Keys by kind, each kind in the order of rows.
pub(crate) fn seam_keys(alloc: Global, game: &Game, keys: &[Key]) -> Result<ByKind, AllocError>
    requires { (k : Key) → Contains keys.now k → IsPosition (game_of game.now) k.pos }
    ensures { IfOk result (AreByKind (game_of game.now) keys.now) }
{
    let lists = by_kind(alloc, game, keys)?;
    let asked = ascending(alloc, lists.asked)?;
    let labels = ascending(alloc, lists.labels)?;
    let opens = ascending(alloc, lists.opens)?;
    let closes = ascending(alloc, lists.closes)?;
    let calls = ascending(alloc, lists.calls)?;
    Ok(ByKind {
        asked,
        labels,
        opens,
        closes,
        calls,
    })
}

/// Appends the exit for a call, if there is one.
fn put_return(
    seam_key: Option<SeamKey>,
    exit: &Key,
    returns: &mut Vec<(SeamKey, Key)>,
) -> Result<(), AllocError>
    ensures { OnOk result (returns.new.items ≡ put_return returns.old.items seam_key exit.now) }
{
    if let Some(seam_key) = seam_key {
        returns.push((seam_key, *exit))?;
    }
    Ok(())
}

/// Pairs of a call and an exit, in the order of rows.
pub(crate) fn returns(
    alloc: Global,
    game: &Game,
    pairs: &[(Key, Key)],
) -> Result<Vec<(SeamKey, Key)>, AllocError>
    requires { (ab : Key × Key) → Contains pairs.now ab → IsPosition (game_of game.now) ab.0.pos }
    ensures { IfOk result (λ v. Exactly return_cmp (Contains (filter_map (return_of (game_of game.now)) pairs.now)) v.items) }
{
    let mut found = Vec::with_capacity(alloc, pairs.len())?;
    for pair in pairs {
        put_return(call_at(game, &pair.0), &pair.1, &mut found)?;
    }
    ascending(alloc, found)
}
