//! Games: how many states and positions they have, why there is none, and where the moves of a split call lead.

use crate::texts::{CALL, CALL_POLICY, ONE, TOOL, TOOL_POLICY, TWO};
use crate::told::{Answer, Question, all_joined_told, all_told};
use cw_certs::Move;
use cw_core::{PosId, SeamId, StateId};
use cw_product::{Game, Turn};

/// What is so of a game.
#[derive(Clone, Copy)]
pub enum Fact {
    /// How many seams there are.
    Seams(usize),
    /// Whether there is this seam.
    Seam(SeamId, bool),
    /// Whether this seam has this stage.
    Stage(SeamId, u8, bool),
    /// Where the program begins, and in which state.
    Start(PosId, StateId),
    /// Who moves at a position.
    Turn(PosId, Turn),
    /// The moves at a position.
    Moves(PosId, Move, Option<Move>),
    /// Where a move at a position in a state leads.
    Next(PosId, StateId, Move, Option<(PosId, StateId)>),
    /// The state of a call, that of its end, whether the call was split, and the state after the return.
    Returned(StateId, StateId, bool, StateId),
}

const NUMBER: &str = "[[descriptor]]
name = \"0\"
rights = [\"CAP_READ\", \"CAP_WRITE\"]
[[limit]]
descriptor = \"0\"
keep = [\"CAP_READ\"]
[[limit]]
descriptor = \"0\"
keep = [\"CAP_WRITE\"]
";

const NOTHING: &str = "[[limit]]
descriptor = \"0\"
keep = []
";

const NEVER: &str = "[[at]]
label = \"a\"
never = [\"0:CAP_READ\", \"0:CAP_WRITE\"]
";

const OPENED: &str = "format = 1
[[descriptor]]
name = \"fd\"
[[limit]]
descriptor = \"fd\"
keep = [\"CAP_READ\"]
[[at]]
label = \"a\"
never = [\"fd:CAP_WRITE\"]
";

const WHILE_OPEN: &str = "format = 1
[[descriptor]]
name = \"in\"
[[limit]]
descriptor = \"in\"
keep = [\"CAP_READ\"]
[[rule]]
name = \"r\"
bad = \".* a .* b[in:CAP_WRITE]\"
";

/// Three limits of one number, and a rule of 63 labels: 8 rights states and 64 policy states.
const LONG: &str = "[[descriptor]]
name = \"0\"
rights = [\"CAP_READ\", \"CAP_WRITE\", \"CAP_SEEK\"]
[[limit]]
descriptor = \"0\"
keep = [\"CAP_READ\"]
[[limit]]
descriptor = \"0\"
keep = [\"CAP_WRITE\"]
[[limit]]
descriptor = \"0\"
keep = []
[[rule]]
name = \"long\"
bad = \"a a a a a a a a a a a a a a a a a a a a a a a a a a a a a a a a a a a a a a a a a a a a a a a a a a a a a a a a a a a a a a a\"
";

/// A fourth limit of the same number: 10 rights states.
const FOURTH: &str = "[[limit]]
descriptor = \"0\"
keep = [\"CAP_READ\", \"CAP_WRITE\"]
";

/// A rule of any words, `a`, and six letters: more than 64 policy states.
const LATE: &str = "[[rule]]
name = \"late\"
bad = \".* a . . . . . .\"
";

const SEVEN: &str = "[[rule]]
name = \"seven\"
bad = \"a a a a a a a\"
";

const EIGHT: &str = "[[rule]]
name = \"eight\"
bad = \"a a a a a a a a\"
";

/// Six variables.
const SIX: &str = "[[descriptor]]
name = \"u\"
[[descriptor]]
name = \"v\"
[[descriptor]]
name = \"w\"
[[descriptor]]
name = \"x\"
[[descriptor]]
name = \"y\"
[[descriptor]]
name = \"z\"
";

/// One more, before them.
const SEVENTH: &str = "[[descriptor]]
name = \"t\"
";

/// One more, before those.
const EIGHTH: &str = "[[descriptor]]
name = \"s\"
";

/// A limit for each of eight variables, and another for four of them.
const LIMITS: &str = "[[limit]]
descriptor = \"s\"
keep = [\"CAP_READ\"]
[[limit]]
descriptor = \"t\"
keep = [\"CAP_READ\"]
[[limit]]
descriptor = \"u\"
keep = [\"CAP_READ\"]
[[limit]]
descriptor = \"v\"
keep = [\"CAP_READ\"]
[[limit]]
descriptor = \"w\"
keep = [\"CAP_READ\"]
[[limit]]
descriptor = \"x\"
keep = [\"CAP_READ\"]
[[limit]]
descriptor = \"y\"
keep = [\"CAP_READ\"]
[[limit]]
descriptor = \"z\"
keep = [\"CAP_READ\"]
[[limit]]
descriptor = \"s\"
keep = [\"CAP_WRITE\"]
[[limit]]
descriptor = \"t\"
keep = [\"CAP_WRITE\"]
[[limit]]
descriptor = \"u\"
keep = [\"CAP_WRITE\"]
[[limit]]
descriptor = \"v\"
keep = [\"CAP_WRITE\"]
";

/// The labels `a` and `b`, before empty statements.
const LABELS: &str = "int main(void){a:;b:;";

const END: &str = "return 0;}";

#[test]
fn rows_on_descriptors_have_their_numbers(rt: HostRuntime) {
    all_joined_told(
        &rt,
        rt.alloc(),
        &[
            (
                "two limits of a number",
                &[("format = 1\n", 1), (NUMBER, 1), (NEVER, 1)],
                &[(ONE, 1)],
                Question::Made,
                ("made", 6, 17),
            ),
            (
                "a limit to nothing too",
                &[("format = 1\n", 1), (NUMBER, 1), (NOTHING, 1), (NEVER, 1)],
                &[(ONE, 1)],
                Question::Made,
                ("made", 16, 21),
            ),
            (
                "a variable that is opened",
                &[(OPENED, 1)],
                &[("int fd; int main(void){fd=open_it();a:;return 0;}", 1)],
                Question::Made,
                ("made", 12, 14),
            ),
            (
                "a rule on what stays open",
                &[(WHILE_OPEN, 1)],
                &[(
                    "int in; int main(void){in=open_it();if(c){a:;}b:;return 0;}",
                    1,
                )],
                Question::Made,
                ("made", 30, 21),
            ),
        ],
    );
}

#[test]
fn the_first_limit_is_told(rt: HostRuntime) {
    all_joined_told(
        &rt,
        rt.alloc(),
        &[
            // rights states: 128, more, and more with too many policy states
            (
                "as many rights states as there may be",
                &[("format = 1\n", 1), (SIX, 1)],
                &[(TWO, 1)],
                Question::Made,
                ("made", 256, 13),
            ),
            (
                "more of them, and more policy states",
                &[("format = 1\n", 1), (SEVENTH, 1), (SIX, 1), (LATE, 1)],
                &[(TWO, 1)],
                Question::Made,
                ("too many rights states", 0, 0),
            ),
            (
                "more of them by limits",
                &[
                    ("format = 1\n", 1),
                    (EIGHTH, 1),
                    (SEVENTH, 1),
                    (SIX, 1),
                    (LIMITS, 1),
                ],
                &[(TWO, 1)],
                Question::Made,
                ("too many rights states", 0, 0),
            ),
            // policy states: more, also where the pairs would be too many
            (
                "more policy states",
                &[("format = 1\n", 1), (SIX, 1), (LATE, 1)],
                &[(TWO, 1)],
                Question::Made,
                ("too many policy states", 0, 0),
            ),
        ],
    );
}

#[test]
fn pairs_and_positions_are_limited(rt: HostRuntime) {
    all_joined_told(
        &rt,
        rt.alloc(),
        &[
            (
                "as many pairs as format 1 has",
                &[("format = 1\n", 1), (LONG, 1)],
                &[(TWO, 1)],
                Question::Made,
                ("made", 512, 31),
            ),
            (
                "more pairs than format 1 has, and more positions",
                &[("format = 1\n", 1), (LONG, 1), (FOURTH, 1)],
                &[(LABELS, 1), (";", 2018), (END, 1)],
                Question::Made,
                ("too many pairs", 0, 0),
            ),
            (
                "as many in format 2",
                &[("format = 2\n", 1), (LONG, 1), (FOURTH, 1)],
                &[(TWO, 1)],
                Question::Made,
                ("made", 640, 37),
            ),
            (
                "as many pairs as format 2 has",
                &[("format = 2\n", 1), (SIX, 1), (SEVEN, 1)],
                &[(TWO, 1)],
                Question::Made,
                ("made", 1024, 13),
            ),
            (
                "more pairs than format 2 has",
                &[("format = 2\n", 1), (SIX, 1), (EIGHT, 1)],
                &[(TWO, 1)],
                Question::Made,
                ("too many pairs", 0, 0),
            ),
            // positions times states: 1,048,576, and 512 more
            (
                "as many positions as there may be",
                &[("format = 1\n", 1), (LONG, 1)],
                &[(LABELS, 1), (";", 2017), (END, 1)],
                Question::Made,
                ("made", 512, 2048),
            ),
            (
                "more positions",
                &[("format = 1\n", 1), (LONG, 1)],
                &[(LABELS, 1), (";", 2018), (END, 1)],
                Question::Made,
                ("too many positions", 0, 0),
            ),
        ],
    );
}

/// Whether this is so of a game.
fn is_so(game: &Game, fact: Fact) -> bool {
    match fact {
        Fact::Seams(count) => game.graph().seams.len() == count,
        Fact::Seam(seam, is) => game.has_seam(seam) == is,
        Fact::Stage(seam, stage, is) => game.has_stage(seam, stage) == is,
        Fact::Start(pos, state) => game.start() == (pos, state),
        Fact::Turn(pos, turn) => pos.0 < game.positions() && game.turn(pos) == turn,
        Fact::Moves(pos, first, second) => {
            pos.0 < game.positions() && game.moves(pos) == (first, second)
        }
        Fact::Next(pos, state, by, to) => {
            pos.0 < game.positions() && state.0 < game.states() && game.next(pos, state, by) == to
        }
        Fact::Returned(call, exit, split, to) => {
            call.0 < game.states()
                && exit.0 < game.states()
                && game.returned(call, exit, split) == to
        }
    }
}

/// What is told where these are asked of a game: how many are so, or the number of the first that isn't.
pub fn are_so(game: &Game, facts: &[Fact]) -> Answer {
    for (i, fact) in facts.iter().enumerate() {
        if !is_so(game, *fact) {
            return ("not so", i as u64, 0);
        }
    }
    ("so", facts.len() as u64, 0)
}

/// Three limits and an enter at each seam but no split.
#[test]
fn the_tool_has_its_numbers(rt: HostRuntime) {
    all_told(
        &rt,
        rt.alloc(),
        &[
            (
                "states and positions",
                TOOL_POLICY,
                TOOL,
                Question::Made,
                ("made", 72, 247),
            ),
            (
                "seams, stages and the start",
                TOOL_POLICY,
                TOOL,
                Question::Facts(&[
                    Fact::Seams(26),
                    Fact::Seam(SeamId(25), true),
                    Fact::Seam(SeamId(26), false),
                    Fact::Stage(SeamId(20), 3, true),
                    Fact::Stage(SeamId(20), 4, false),
                    Fact::Start(PosId(153), StateId(1)),
                ]),
                ("so", 6, 0),
            ),
        ],
    );
}

const CALLED: Turn = Turn::Call {
    callee: 0,
    split: false,
    back: PosId(19),
};

const CALLED_SPLIT: Turn = Turn::Call {
    callee: 0,
    split: true,
    back: PosId(19),
};

#[test]
fn a_split_call_has_two_free_positions(rt: HostRuntime) {
    all_told(
        &rt,
        rt.alloc(),
        &[
            (
                "states and positions",
                CALL_POLICY,
                CALL,
                Question::Made,
                ("made", 4, 25),
            ),
            (
                "turns, moves and returns",
                CALL_POLICY,
                CALL,
                Question::Facts(&[
                    Fact::Turn(PosId(17), CALLED),
                    Fact::Turn(PosId(18), CALLED_SPLIT),
                    Fact::Moves(PosId(16), Move::Grant, Some(Move::Refuse)),
                    Fact::Moves(PosId(18), Move::On, None),
                    // granted, the split goes to the second; refused, to the first
                    Fact::Next(
                        PosId(16),
                        StateId(1),
                        Move::Grant,
                        Some((PosId(18), StateId(1))),
                    ),
                    Fact::Next(
                        PosId(16),
                        StateId(1),
                        Move::Refuse,
                        Some((PosId(17), StateId(1))),
                    ),
                    Fact::Next(PosId(17), StateId(1), Move::On, None),
                    Fact::Next(PosId(18), StateId(1), Move::On, None),
                    // the word of the end, with the rights of the call where it was split
                    Fact::Returned(StateId(0), StateId(3), false, StateId(3)),
                    Fact::Returned(StateId(0), StateId(3), true, StateId(2)),
                ]),
                ("so", 10, 0),
            ),
        ],
    );
}
