//! What the calls do on small lists, and that a million of each ends in time.
ghost use Rattle.std.specs.Prelude.{◌≡◌, ◌<◌, length};

use cw_links::{Buckets, Chains, NearQueue, Queue};
use std::alloc::Global;
use std::process::Abort;

/// How many of each call there are where time matters.
const MANY: u32 = 1_000_000;

/// Three lists: a, b, c with the cells 2, 1, 0, then d with 3, then e, f with 5, 4.
fn three_lists(rt: &impl Abort, alloc: Global) -> Chains<u8>
    ensures lists { length result.lists ≡ 3 }
    ensures values { length result.values ≡ 6 }
{
    let mut chains = Chains::make(alloc, 3).expect(rt, "memory");
    chains.reserve(2).expect(rt, "memory");
    chains.push_front(0, b'c').expect(rt, "memory");
    chains.push_front(0, b'b').expect(rt, "memory");
    chains.push_front(0, b'a').expect(rt, "memory");
    chains.push_front(1, b'd').expect(rt, "memory");
    chains.push_front(2, b'f').expect(rt, "memory");
    chains.push_front(2, b'e').expect(rt, "memory");
    chains
}

/// Asserts that the three lists have these cells, first to last, of the six that were made.
fn expect_lists(rt: &impl Abort, chains: &Chains<u8>, lists: &[&[u32]])
    requires lists { length chains.now.lists ≡ 3 }
    requires values { length chains.now.values ≡ 6 }
{
    let mut list: u32 = 0;
    for cells in lists {
        assert!(rt; list < 3);
        let mut at = chains.first(list);
        for cell in *cells {
            assert!(rt; *cell < 6 && at == Some(*cell), "at {cell} of list {list}");
            at = chains.next(*cell);
        }
        assert!(rt; at.is_none(), "the end of list {list}");
        list += 1;
    }
}

#[test]
fn moves_the_middle_cell(rt: HostRuntime) {
    let mut chains = three_lists(&rt, rt.alloc());
    expect_lists(&rt, &chains, &[&[2, 1, 0], &[3], &[5, 4]]);
    chains.move_to(1, 2);
    expect_lists(&rt, &chains, &[&[2, 0], &[3], &[1, 5, 4]]);
    chains.unlink(2);
    chains.unlink(3);
    expect_lists(&rt, &chains, &[&[0], &[], &[1, 5, 4]]);
    assert!(rt; chains.next(2).is_none() && *chains.get(1) == b'b');
}

/// Puts these cells, of so many, at these heights.
fn put_at(rt: &impl Abort, buckets: &mut Buckets, cells: u32, puts: &[(u32, u32)])
    requires { length buckets.old ≡ cells }
{
    'puts: for (cell, height) in puts {
        assert!(rt; *cell < cells);
        buckets.put(*cell, *height).expect(rt, "memory");
    }
}

/// Asserts which cells are taken, and at which heights.
fn take_least(rt: &impl Abort, buckets: &mut Buckets, takes: &[Option<(u32, u32)>]) {
    for taken in takes {
        assert!(rt; buckets.take_least() == *taken);
    }
}

#[test]
fn takes_the_least_first(rt: HostRuntime) {
    let mut buckets = Buckets::make(rt.alloc(), 3).expect(&rt, "memory");
    assert!(rt; buckets.take_least().is_none());
    put_at(&rt, &mut buckets, 3, &[(0, 7), (1, 9), (2, 8), (1, 2)]);
    take_least(
        &rt,
        &mut buckets,
        &[Some((1, 2)), Some((0, 7)), Some((2, 8)), None],
    );
}

/// Has these elements wait under these keys, and asserts what is taken then.
fn expect_taken(
    rt: &impl Abort,
    queue: &mut Queue,
    puts: &[(u32, u32)],
    takes: &[Option<(u32, u32)>],
) {
    for (element, key) in puts {
        assert!(rt; 0 < *key);
        queue.put(*element, *key).expect(rt, "memory");
    }
    for taken in takes {
        assert!(rt; queue.take() == *taken);
    }
}

#[test]
fn takes_the_last_under_the_least_key(rt: HostRuntime) {
    let mut queue = Queue::make(rt.alloc()).expect(&rt, "memory");
    expect_taken(&rt, &mut queue, &[], &[None]);
    expect_taken(
        &rt,
        &mut queue,
        &[(4, 7), (5, 3), (6, 7), (4, 3)],
        &[Some((4, 3)), Some((5, 3)), Some((6, 7))],
    );
    expect_taken(
        &rt,
        &mut queue,
        &[(8, 1), (9, 1_000)],
        &[Some((8, 1)), Some((4, 7)), Some((9, 1_000)), None],
    );
}

/// The same of a queue that keeps what is near apart.
fn expect_near(
    rt: &impl Abort,
    queue: &mut NearQueue,
    puts: &[(u32, u32)],
    takes: &[Option<(u32, u32)>],
) {
    for (element, key) in puts {
        assert!(rt; 0 < *key);
        queue.put(*element, *key).expect(rt, "memory");
    }
    for taken in takes {
        assert!(rt; queue.take() == *taken);
    }
}

#[test]
fn takes_the_last_under_the_least_key_whichever_is_near(rt: HostRuntime) {
    let mut queue = NearQueue::make(rt.alloc()).expect(&rt, "memory");
    expect_near(&rt, &mut queue, &[], &[None]);
    expect_near(
        &rt,
        &mut queue,
        &[(4, 7), (5, 3), (6, 7), (4, 3)],
        &[Some((4, 3)), Some((5, 3)), Some((6, 7))],
    );
    expect_near(
        &rt,
        &mut queue,
        &[(7, 7), (6, 8), (5, 8), (8, 1), (9, 1_000), (3, 9), (2, 9)],
        &[Some((8, 1)), Some((7, 7)), Some((4, 7)), Some((5, 8))],
    );
    expect_near(
        &rt,
        &mut queue,
        &[],
        &[
            Some((6, 8)),
            Some((2, 9)),
            Some((3, 9)),
            Some((9, 1_000)),
            None,
        ],
    );
}

/// So many lists of a cell each, in the order of the cells.
fn many_lists(rt: &impl Abort, alloc: Global, many: u32) -> Chains<u64>
    requires { many < 4294967295 }
    ensures lists { length result.lists ≡ many }
    ensures values { length result.values ≡ many }
{
    let mut chains = Chains::make(alloc, many).expect(rt, "memory");
    for list in 0..many {
        chains
            .push_front(list, u64::from(list))
            .expect(rt, "memory");
    }
    chains
}

/// Moves so many cells to one list, reads it, and takes them out.
fn expect_moves(rt: &impl Abort, chains: &mut Chains<u64>, many: u32)
    requires lists { length chains.old.lists ≡ many }
    requires values { length chains.old.values ≡ many }
{
    for cell in 0..many {
        chains.move_to(cell, many / 2);
    }
    for cell in 0..many {
        assert!(rt; chains.next(cell) == cell.checked_sub(1));
        assert!(rt; *chains.get(cell) == u64::from(cell));
    }
    for cell in 0..many {
        chains.unlink(cell);
        assert!(rt; chains.first(many / 2).is_some() == (cell + 1 < many));
    }
}

/// Puts so many cells in, at heights that rise with them or fall.
fn put_cells(rt: &impl Abort, buckets: &mut Buckets, many: u32, rises: bool)
    requires { length buckets.old ≡ many }
    ensures { length buckets.new ≡ many }
{
    for cell in 0..many {
        let height = if rises { cell } else { many - cell };
        buckets.put(cell, height).expect(rt, "memory");
    }
}

/// Takes so many cells, each at the height of its number.
fn take_cells(rt: &impl Abort, buckets: &mut Buckets, many: u32) {
    for cell in 0..many {
        assert!(rt; buckets.take_least() == Some((cell, cell)));
    }
}

/// Puts so many cells in twice, and takes them out.
fn expect_heights(rt: &impl Abort, alloc: Global, many: u32) {
    let mut buckets = Buckets::make(alloc, many).expect(rt, "memory");
    put_cells(rt, &mut buckets, many, false);
    put_cells(rt, &mut buckets, many, true);
    take_cells(rt, &mut buckets, many);
}

/// Has so many elements wait, under keys that rise with them or fall.
fn put_elements(rt: &impl Abort, queue: &mut Queue, many: u32, rises: bool)
    requires { many < 4294967295 }
{
    for element in 0..many {
        let key = if rises { element + 1 } else { many - element };
        assert!(rt; 0 < key);
        queue.put(element, key).expect(rt, "memory");
    }
}

/// Takes so many elements by each of two puts, the later ones first.
fn take_elements(rt: &impl Abort, queue: &mut Queue, many: u32)
    requires { many < 4294967295 }
{
    for key in 1..many + 1 {
        assert!(rt; queue.take() == Some((key - 1, key)));
        assert!(rt; queue.take() == Some((many - key, key)));
    }
}

/// Has so many elements wait twice, and takes them.
fn expect_keys(rt: &impl Abort, alloc: Global, many: u32)
    requires { many < 4294967295 }
{
    let mut queue = Queue::make(alloc).expect(rt, "memory");
    put_elements(rt, &mut queue, many, false);
    put_elements(rt, &mut queue, many, true);
    take_elements(rt, &mut queue, many);
    assert!(rt; queue.take().is_none());
}

#[test]
fn a_million_of_each_call(rt: HostRuntime) {
    let mut chains = many_lists(&rt, rt.alloc(), MANY);
    expect_moves(&rt, &mut chains, MANY);
    expect_heights(&rt, rt.alloc(), MANY);
    expect_keys(&rt, rt.alloc(), MANY);
}
