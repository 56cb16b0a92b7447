//! The check of strategies: two written out by hand, one through a call in both modes, and each condition broken alone.

use crate::texts::{
    CALL, CALL_POLICY, CALL_STRATEGY, ONE, ONE_POLICY, ONE_STRATEGY, TWO, TWO_POLICY, TWO_STRATEGY,
    joined,
};
use crate::told::{Answer, Question, all_told, told};
use cw_echeck::check_env;
use cw_product::Game;
use cw_strategy_text::read_env;
use std::alloc::Global;
use std::process::Abort;

/// What the check says of a strategy by its text.
pub fn judged(alloc: Global, game: &Game, text: &str) -> Answer {
    let Ok(cert) = read_env(alloc, text.as_bytes(), 1) else {
        return ("no strategy", 0, 0);
    };
    if cert.rows.len() > 65536 {
        return ("too many rows", 0, 0);
    }
    match check_env(game, &cert) {
        Ok(()) => ("good", 0, 0),
        Err(bad) => ("bad", u64::from(bad.row), u64::from(bad.condition)),
    }
}

/// A policy, a source and a strategy.
type Texts<'t> = (&'t str, &'t str, &'t str);

/// Asserts which row and condition fail where other words stand in the strategy in the place of the first that are these.
fn fail(rt: &impl Abort, alloc: Global, texts: Texts, rows: &[(&str, &str, u64, u64)]) {
    let (policy, source, strategy) = texts;
    for (old, new, row, condition) in rows {
        let (front, back) = strategy.split_once(*old).unwrap_or(("", ""));
        let text = joined(alloc, &[(front, 1), (*new, 1), (back, 1)]).expect(rt, "a strategy");
        let answer = told(alloc, policy, source, Question::Strategy(&text));
        assert_eq!(rt; answer, ("bad", *row, *condition), "{new}");
    }
}

#[test]
fn strategies_are_checked(rt: HostRuntime) {
    all_told(
        &rt,
        rt.alloc(),
        &[
            (
                "two labels",
                TWO_POLICY,
                TWO,
                Question::Strategy(TWO_STRATEGY),
                ("good", 0, 0),
            ),
            (
                "an enter that is refused",
                ONE_POLICY,
                ONE,
                Question::Strategy(ONE_STRATEGY),
                ("good", 0, 0),
            ),
            (
                "a call in both modes",
                CALL_POLICY,
                CALL,
                Question::Strategy(CALL_STRATEGY),
                ("good", 0, 0),
            ),
            (
                "a strategy of another program",
                ONE_POLICY,
                ONE,
                Question::Strategy(TWO_STRATEGY),
                ("bad", 1, 1),
            ),
            (
                "no row at the start, and none elsewhere",
                TWO_POLICY,
                TWO,
                Question::Strategy("capweave strategy 1\nstates 4\nend\n"),
                ("bad", 0, 8),
            ),
            (
                "no row at the start, and one elsewhere",
                TWO_POLICY,
                TWO,
                Question::Strategy("capweave strategy 1\nstates 4\n0 5 0 0x0 bad\nend\n"),
                ("bad", 1, 8),
            ),
        ],
    );
}

#[test]
fn each_condition_is_asked(rt: HostRuntime) {
    fail(
        &rt,
        rt.alloc(),
        (CALL_POLICY, CALL, CALL_STRATEGY),
        &[
            ("states 4", "states 5", 0, 1),
            ("45 10 0 0x0 grant 44", "45 10 0 0x0 grant 45", 45, 1),
            ("0 5 0 0xa bad", "0 5 0 0x1a bad", 0, 1),
            ("0 5 0 0xa bad", "0 5 4 0xa bad", 0, 1),
            ("0 5 0 0xa bad", "0 25 0 0xa bad", 0, 1),
            ("0x0 into 27 1=11 3=12", "0x0 into 27 1=11 4=12", 30, 1),
            ("0 5 0 0xa bad", "0 5 1 0xa bad", 0, 2),
            ("1 8 3 0xa out", "1 8 3 0x2 out", 1, 3),
            ("3 21 1 0x0 bad", "3 24 1 0x2 out", 3, 3),
            ("11 19 1 0x0 both 3 7", "11 19 1 0x0 both 4 7", 11, 4),
            ("5 7 3 0xa on 1", "5 7 3 0xa on 2", 5, 5),
            ("0x0 into 27 1=11 3=12", "0x0 into 28 1=11 3=12", 30, 6),
            ("0x0 into 27 1=11 3=12", "0x0 into 27 1=11", 30, 7),
            ("into 29 0=11", "into 28 0=11", 32, 7),
            ("2=12 3=12", "2=11 3=12", 32, 7),
        ],
    );
}
