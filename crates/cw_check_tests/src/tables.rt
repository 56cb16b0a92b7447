//! Tables of small programs, checked against the games of the programs. A test that lacks memory ends at once, and what it reads isn't let go: the proof of
//! that would cost more than all its calls.

ghost use Rattle.std.specs.Prelude.{◌≤◌, length, IsTrue, IfSome};
ghost use Rattle.cw_rights.specs.Policies.{policy_of};
ghost use Rattle.cw_rights.specs.Valid.{IsValid};
ghost use Rattle.cw_product.specs.Product.{IsProgramsGraph};
ghost use Rattle.cw_wcheck.specs.Checking.{HasFewRows};

use crate::lines::{FILE, RECURSION, SPLIT, STOP, TWO_PROMISES, Texts};
use cw_certs::WeaverCert;
use cw_core::limits::POINTS;
use cw_core::{MemId, PosId};
use cw_points::Graph;
use cw_points::build::build;
use cw_policy::read_policy;
use cw_product::Game;
use cw_rights::Policy;
use cw_source::laws::programs_are_runnable;
use cw_source::read_source;
use cw_table_text::read_tables;
use cw_wcheck::check_weaver;
use std::alloc::Global;
use std::mem::forget;
use std::process::Abort;

/// Words, and what is put in the place of the first that are so.
type Edit<'t> = (&'t str, &'t str);

/// Edits of a table's text, and what is told of the table then: the list, the row and the condition that fails, or that it is good.
type Row<'t> = (&'t [Edit<'t>], &'t str);

/// A text with these edits.
fn edited(rt: &impl Abort, alloc: Global, text: &str, edits: &[Edit]) -> String {
    let mut whole = String::from_str(alloc, text).expect(rt, "memory");
    for (old, new) in edits {
        let (front, back) = whole
            .split_once(*old)
            .expect(rt, "words that don't stand there");
        whole = format!(in alloc; "{front}{new}{back}").expect(rt, "memory");
    }
    whole
}

/// Whether the numbers of a table's rows fit 32 bits.
fn has_few_rows(table: &WeaverCert) -> bool
    ensures few { IsTrue result → HasFewRows table.now }
{
    let states = table.mems().len() as u128 + table.live().len() as u128;
    let tries = table.tries().len() as u128 + table.ats().len() as u128;
    let variables = table.opened().len() as u128 + table.closed().len() as u128;
    let calls = table.into_rows().len() as u128 + table.back_rows().len() as u128;
    states + tries + variables + calls < 4294967296
}

/// What is told of a table.
fn told(rt: &impl Abort, alloc: Global, game: &Game, table: &WeaverCert) -> String {
    assert!(rt; has_few_rows(table), "too many rows");
    match check_weaver(game, table) {
        Ok(()) => String::from_str(alloc, "good").expect(rt, "memory"),
        Err(row) => format!(in alloc;
            "list {}, row {}, condition {}",
            row.table, row.number, row.condition
        )
        .expect(rt, "memory"),
    }
}

/// Asserts what is told of the table with this text.
fn tells(rt: &impl Abort, alloc: Global, policy: &Policy, game: &Game, text: &str, wanted: &str) {
    let table = read_tables(alloc, text.as_bytes(), policy).expect(rt, "a table's text");
    let told = told(rt, alloc, game, &table);
    assert!(rt; told.as_str() == wanted, "{told} and not {wanted}");
    forget(table);
}

/// The graph of a source that is read, under a policy's names.
fn graph_of(alloc: Global, policy: &Policy, source: &[u8]) -> Option<Graph>
    requires valid { IsValid (policy_of policy.now) }
    ensures drawn { IfSome result (IsProgramsGraph (policy_of policy.now)) }
    ensures few { IfSome result (λ g. length g.nodes.items ≤ POINTS) }
{
    if source.len() > 262144 {
        return None;
    }
    programs_are_runnable();
    let Ok(checked) = read_source(alloc, source) else {
        return None;
    };
    let Ok(graph) = build(alloc, &checked, policy) else {
        return None;
    };
    if graph.nodes.len() > 8192 {
        return None;
    }
    Some(graph)
}

/// Asserts what is told of tables of a game.
fn all_tell(
    rt: &impl Abort,
    alloc: Global,
    policy: &Policy,
    game: &Game,
    text: &str,
    rows: &[Row],
) {
    for (edits, wanted) in rows {
        let text = edited(rt, alloc, text, edits);
        tells(rt, alloc, policy, game, &text, wanted);
    }
}

/// Asserts what is told of the table with these texts, edited.
fn all_told(rt: &impl Abort, alloc: Global, texts: Texts, rows: &[Row]) {
    let policy = read_policy(alloc, texts.policy.as_bytes()).expect(rt, "a policy");
    let Some(graph) = graph_of(alloc, &policy, texts.source.as_bytes()) else {
        panic!(rt; "a source without a graph");
    };
    let game = Game::make(alloc, &graph, &policy).expect(rt, "a game");
    all_tell(rt, alloc, &policy, &game, texts.table, rows);
    forget(game);
    forget(graph);
    forget(policy);
}

#[test]
fn tables_are_good(rt: HostRuntime) {
    let alloc = rt.alloc();
    all_told(&rt, alloc, TWO_PROMISES, &[(&[], "good")]);
    all_told(&rt, alloc, FILE, &[(&[], "good")]);
    all_told(&rt, alloc, RECURSION, &[(&[], "good")]);
    all_told(&rt, alloc, SPLIT, &[(&[], "good")]);
    all_told(&rt, alloc, STOP, &[(&[], "good")]);
}

#[test]
fn a_smaller_promise_is_told_where_it_is_led_to(rt: HostRuntime) {
    all_told(
        &rt,
        rt.alloc(),
        TWO_PROMISES,
        &[(
            &[("CW_MEM(2,2,0x5)", "CW_MEM(2,2,0x1)")],
            "list 2, row 6, condition 6",
        )],
    );
}

/// Rows of where memories are live.
fn live_rows(rt: &impl Abort, alloc: Global, rows: &[(u32, u32)]) -> Vec<(PosId, MemId)> {
    let mut live = Vec::new(alloc);
    for (pos, mem) in rows {
        live.push((PosId(*pos), MemId(*mem))).expect(rt, "memory");
    }
    live
}

/// Whether there is a table that has these rows alone of where memories are live.
fn is_table(rt: &impl Abort, alloc: Global, rows: &[(u32, u32)]) -> bool {
    let table = WeaverCert::make(
        4,
        MemId(1),
        Vec::new(alloc),
        live_rows(rt, alloc, rows),
        Vec::new(alloc),
        Vec::new(alloc),
        Vec::new(alloc),
        Vec::new(alloc),
        Vec::new(alloc),
        Vec::new(alloc),
    );
    let is_made = table.is_some();
    forget(table);
    is_made
}

#[test]
fn two_equal_rows_make_no_table(rt: HostRuntime) {
    assert!(rt; is_table(&rt, rt.alloc(), &[(2, 4), (3, 0)]));
    assert!(rt; !is_table(&rt, rt.alloc(), &[(2, 4), (3, 0), (3, 0)]));
}

#[test]
fn each_condition_is_told_alone(rt: HostRuntime) {
    all_told(
        &rt,
        rt.alloc(),
        TWO_PROMISES,
        &[
            (
                &[("CW_AT(1,0,2)", "CW_AT(1,0,9)")],
                "list 4, row 0, condition 1",
            ),
            (&[("CW_LIVE(8,1)\n", "")], "list 2, row 0, condition 2"),
            (
                &[("CW_LIVE(20,4)", "CW_LIVE(20,1)\nCW_LIVE(20,4)")],
                "list 2, row 21, condition 3",
            ),
            (&[("CW_LIVE(2,0)\n", "")], "list 2, row 0, condition 4"),
            (
                &[("CW_TRY(5,0,3,4,CW_NONE)", "CW_TRY(5,0,3,3,CW_NONE)")],
                "list 2, row 20, condition 5",
            ),
            (&[("CW_AT(4,3,3)\n", "")], "list 2, row 17, condition 6"),
            (&[("CW_INTO(3,0,1,0)\n", "")], "list 2, row 15, condition 7"),
            (
                &[("CW_BACK(3,0,1,2,3)\n", "")],
                "list 2, row 15, condition 8",
            ),
            (
                &[
                    ("CW_MEM(0,0,0x5)", "CW_MEM(0,0,0x1)"),
                    ("CW_MEM(2,2,0x5)", "CW_MEM(2,2,0x1)"),
                ],
                "list 2, row 10, condition 9",
            ),
        ],
    );
}

#[test]
fn each_condition_is_told_before_a_later_one(rt: HostRuntime) {
    all_told(
        &rt,
        rt.alloc(),
        TWO_PROMISES,
        &[
            (
                &[("CW_AT(1,0,2)", "CW_AT(1,0,9)"), ("CW_LIVE(8,1)\n", "")],
                "list 4, row 0, condition 1",
            ),
            (
                &[("CW_LIVE(8,1)", "CW_LIVE(8,0)")],
                "list 2, row 0, condition 2",
            ),
            (
                &[
                    ("CW_LIVE(20,4)", "CW_LIVE(20,1)\nCW_LIVE(20,4)"),
                    ("CW_BACK(6,0,4,3,4)\n", ""),
                ],
                "list 2, row 21, condition 3",
            ),
            (
                &[
                    ("CW_LIVE(2,0)\n", ""),
                    ("CW_LIVE(0,4)", "CW_LIVE(0,4)\nCW_LIVE(1,0)"),
                ],
                "list 2, row 0, condition 4",
            ),
            (
                &[("CW_LIVE(0,4)", "CW_LIVE(1,4)")],
                "list 2, row 1, condition 5",
            ),
            (
                &[("CW_LIVE(7,2)", "CW_LIVE(7,0)")],
                "list 2, row 8, condition 6",
            ),
            (
                &[("CW_INTO(3,0,1,0)", "CW_INTO(3,0,1,1)")],
                "list 2, row 15, condition 7",
            ),
            (
                &[("CW_MEM(3,2,0xf)", "CW_MEM(3,2,0x6)")],
                "list 2, row 15, condition 8",
            ),
            (
                &[("CW_MEM(4,3,0xf)", "CW_MEM(4,3,0x0)")],
                "list 2, row 11, condition 9",
            ),
        ],
    );
}

#[test]
fn ranges_are_told_list_by_list(rt: HostRuntime) {
    let alloc = rt.alloc();
    all_told(
        &rt,
        alloc,
        FILE,
        &[
            (
                &[("CW_TABLE(1,12,0)", "CW_TABLE(1,11,0)")],
                "list 1, row 0, condition 1",
            ),
            (
                &[("CW_TABLE(1,12,0)", "CW_TABLE(1,12,5)")],
                "list 1, row 0, condition 1",
            ),
            (
                &[("CW_MEM(4,7,0xfff)", "CW_MEM(4,7,0x1000)")],
                "list 1, row 4, condition 1",
            ),
            (
                &[("CW_MEM(4,7,0xfff)", "CW_MEM(4,12,0xfff)")],
                "list 1, row 4, condition 1",
            ),
            (
                &[("CW_LIVE(20,3)", "CW_LIVE(20,3)\nCW_LIVE(99,0)")],
                "list 2, row 21, condition 1",
            ),
            (
                &[("CW_TRY(2,0,2,1,CW_NONE)", "CW_TRY(2,0,2,1,9)")],
                "list 3, row 0, condition 1",
            ),
            (
                &[("CW_AT(4,3,3)", "CW_AT(5,3,3)")],
                "list 4, row 2, condition 1",
            ),
            (
                &[("CW_OPENED(1,0,2,0)", "CW_OPENED(1,0,9,0)")],
                "list 5, row 0, condition 1",
            ),
            (
                &[("CW_CLOSED(3,4,3)", "CW_CLOSED(3,4,9)")],
                "list 6, row 1, condition 1",
            ),
        ],
    );
    all_told(
        &rt,
        alloc,
        RECURSION,
        &[
            (
                &[("CW_INTO(1,0,0,0)", "CW_INTO(1,0,0,9)")],
                "list 7, row 0, condition 1",
            ),
            (
                &[("CW_BACK(1,0,0,3,2)", "CW_BACK(1,0,0,4,2)")],
                "list 8, row 1, condition 1",
            ),
        ],
    );
}

/// Of the recursion, the second of two memories at the function's end.
#[test]
fn opens_closes_and_returns_ask_for_their_rows(rt: HostRuntime) {
    let alloc = rt.alloc();
    all_told(
        &rt,
        alloc,
        FILE,
        &[
            (
                &[("CW_OPENED(1,0,2,0)\n", "")],
                "list 2, row 3, condition 6",
            ),
            (&[("CW_CLOSED(3,4,3)\n", "")], "list 2, row 14, condition 6"),
        ],
    );
    all_told(
        &rt,
        alloc,
        RECURSION,
        &[(
            &[("CW_BACK(1,0,0,3,2)\n", "")],
            "list 2, row 4, condition 8",
        )],
    );
    all_told(
        &rt,
        alloc,
        SPLIT,
        &[(
            &[("CW_INTO(3,1,0,0)", "CW_INTO(3,0,0,0)")],
            "list 2, row 14, condition 7",
        )],
    );
}

#[test]
fn going_on_is_checked_after_a_refusal_that_a_stop_answers(rt: HostRuntime) {
    all_told(
        &rt,
        rt.alloc(),
        STOP,
        &[(
            &[("CW_TRY(1,0,0,1,CW_NONE)", "CW_TRY(1,0,0,1,0)")],
            "list 2, row 3, condition 5",
        )],
    );
}
