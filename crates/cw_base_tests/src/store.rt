//! Cells of a store: the order in which they are taken, and the heights that they have then.

use cw_links::{Popped, Store};
use std::alloc::Global;
use std::process::Abort;

/// So many indices, of which none is a link.
fn indices(rt: &impl Abort, alloc: Global, many: u32) -> Store {
    let mut store = Store::make(alloc).expect(rt, "memory");
    assert!(rt; store.indices() == 0 && many < 1000);
    store.push_plain(many).expect(rt, "memory");
    store
}

/// Has the cell at an index wait for a height.
fn ask(rt: &impl Abort, store: &mut Store, index: usize, height: u32) {
    assert!(rt; index < store.indices() && 0 < height && height < 1000);
    store.ask_cell(index, height).expect(rt, "memory");
}

/// The index and the key of the cell that is taken.
fn take(store: &mut Store) -> Option<(usize, u32)> {
    match store.pop() {
        Popped::Cell(index, key) => Some((index, key)),
        Popped::Nothing | Popped::Link(_, _) => None,
    }
}

fn height_of(store: &Store, index: usize) -> Option<u32> {
    if index < store.indices() {
        Some(store.height(index))
    } else {
        None
    }
}

/// Has these cells wait for these heights, and asserts what is taken then.
fn expect_cells(
    rt: &impl Abort,
    store: &mut Store,
    asks: &[(usize, u32)],
    takes: &[Option<(usize, u32)>],
) {
    for (index, height) in asks {
        ask(rt, store, *index, *height);
    }
    for taken in takes {
        assert!(rt; take(store) == *taken);
    }
}

#[test]
fn cells_have_the_heights_for_which_they_waited(rt: HostRuntime) {
    let mut store = indices(&rt, rt.alloc(), 4);
    expect_cells(
        &rt,
        &mut store,
        &[(2, 5), (0, 7), (3, 9), (2, 6), (0, 4)],
        &[Some((0, 8)), Some((2, 10))],
    );
    // What has a height is passed over, and what waits is lowered.
    expect_cells(
        &rt,
        &mut store,
        &[(0, 1), (2, 3), (3, 8)],
        &[Some((3, 16)), None],
    );
    assert!(rt; height_of(&store, 0) == Some(4) && height_of(&store, 1) == Some(0));
    expect_cells(&rt, &mut store, &[(1, 2)], &[]);
    assert!(rt; height_of(&store, 1) == Some(0) && height_of(&store, 4).is_none());
    let heights = store.into_heights();
    assert!(rt; heights.as_slice() == [4, 0, 5, 8].as_slice());
}
