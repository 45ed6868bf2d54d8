//! Models that are bound to data: the values of expressions in their worlds, and their networks.

use crate::asking::{Call, Question, Shown, shown_of};
use crate::comparison::expect;
use std::test::Fail;

/// Sets, and a parameter that has a value of its own at 3 alone.
const MODEL: &str =
    "set S := {3,1} union {2,1}; set L := {(1,2),(2,3),(1,4)}; param p {S} default 5;";

const DATA: &str = "param p := 3 7;";

/// Calls with an expression, or with braces, and their answers.
const QUESTIONS: &[(Call, Option<i64>, &str, &str)] = &[
    (Call::Value, None, "check: 2 + 3 * 4 = 1;", "14"),
    (
        Call::Value,
        None,
        "check: sum {i in 1..3} i * 2 + 1 = 13;",
        "13",
    ),
    (Call::Value, None, "check: p[3] - p[2] = 1;", "2"),
    (Call::Value, Some(8), "check: i = 1;", "8"),
    (Call::Value, None, "check: 'it''s' = 1;", "'it''s'"),
    (
        Call::Value,
        None,
        "check: 7 div 0 = 1;",
        "E38 DivMod in the model, bytes 7..14",
    ),
    (
        Call::Value,
        None,
        "check: p[4] = 1;",
        "E33 OutsideSet in the model, bytes 7..11: p[4]",
    ),
    (
        Call::Members,
        None,
        "check: {3,1} union {2,1} within S;",
        " 3; 1; 2;",
    ),
    (Call::Members, None, "check: L within S;", " 1 2; 2 3; 1 4;"),
    (
        Call::Members,
        None,
        "check: S cross {'a'} within L;",
        " 3 'a'; 1 'a'; 2 'a';",
    ),
    (
        Call::Members,
        None,
        "check: {1,(1,2)} within S;",
        "E37 Arity in the model, bytes 7..16",
    ),
    (
        Call::Holds,
        None,
        "check: sum {i in 1..3} i * 2 + 1 = 13;",
        "true",
    ),
    (Call::Holds, None, "check: 4 in S;", "false"),
    (
        Call::Holds,
        None,
        "check: 'a' < 1;",
        "E36 KindMismatch in the model, bytes 7..14",
    ),
    (
        Call::IndexOf,
        None,
        "check {i in S}: 1 = 1;",
        "Some(1): 3 with i=3; 1 with i=1; 2 with i=2;",
    ),
    (
        Call::IndexOf,
        None,
        "check {(i,j) in L: j < 4}: 1 = 1;",
        "Some(2): 1 2 with i=1 j=2; 2 3 with i=2 j=3;",
    ),
    (
        Call::IndexOf,
        Some(2),
        "check {(i,j) in L: j div (j - 2) > 0}: 1 = 1;",
        "Some(1): 3 with i=2 j=3;",
    ),
    (
        Call::IndexOf,
        Some(3),
        "check {(i,j) in L: j div (j - 2) > 0}: 1 = 1;",
        "Some(1):",
    ),
    (
        Call::IndexOf,
        Some(1),
        "check {(i,j) in L: j div (j - 2) > 0}: 1 = 1;",
        "E38 DivMod in the model, bytes 19..32",
    ),
];

#[test]
fn expressions_have_values(rt: HostRuntime) -> Result<(), Fail> {
    for (call, dummy, check, wanted) in QUESTIONS {
        let question = Question {
            call: *call,
            dummy: *dummy,
            check,
        };
        expect(
            check,
            shown_of(rt.alloc(), Shown::Answer(question), MODEL, DATA),
            wanted,
        )?;
    }
    Ok(())
}

/// Models and data, with all sets and parameters of their world, or the first error.
const WORLDS: &[(&str, &str, &str)] = &[
    (
        "set S; set L dimen 2; param c {L}; param d {i in S} default 2 * i; param rate;
param r {i in S, j in 1..2} := 10 * i + j;",
        "set S := 3 1 2; param : L : c := a 1 5 b 2 . a 2 7; param d := 1 9; param rate := 4;",
        "S of 1: 3; 1; 2; L of 2: 'a' 1; 'b' 2; 'a' 2; \
c by Some(2): 'a' 1 = 5; 'b' 2 = none; 'a' 2 = 7; d by Some(1): 3 = 6; 1 = 9; 2 = 4; rate by None: = 4; \
r by Some(2): 3 1 = 31; 3 2 = 32; 1 1 = 11; 1 2 = 12; 2 1 = 21; 2 2 = 22; ",
    ),
    (
        "set A; set B; param m {A, B}; param n {B} default 0;",
        "set A := x y; set B := 1 2; param m default 8 (tr) : x y := 1 5 . 2 6 7; param n := 2 3; param n := 1 4;",
        "A of 1: 'x'; 'y'; B of 1: 1; 2; \
m by Some(2): 'x' 1 = 5; 'x' 2 = 6; 'y' 1 = 8; 'y' 2 = 7; n by Some(1): 1 = 4; 2 = 3; ",
    ),
    (
        "set C; param home {C} symbolic; set E dimen 3; set U := C union {'Rome', 7}; param lone;",
        "param : C : home := 'New York' Bern Rome 7; set E := ;",
        "C of 1: 'New York'; 'Rome'; home by Some(1): 'New York' = 'Bern'; 'Rome' = 7; E of 3: \
U of 1: 'New York'; 'Rome'; 7; lone by None: = none; ",
    ),
    (
        "set S; check: 1 in S; param p {S} >= 0;",
        "set S := 2; param p := 2 -1;",
        "E34 Restriction in the model, bytes 37..38: p[2]",
    ),
    (
        "set S; set T;",
        "set T := 1 1;",
        "E32 NoValue in the model, bytes 4..5: S",
    ),
    (
        "set S; set T;",
        "set S := 2; set T := 1 1;",
        "E31 DoubleValue in the data, bytes 23..24: T",
    ),
    (
        "set S; param p {S};",
        "set S := 2; param p := 2 5 3 6 2 7;",
        "E33 OutsideSet in the data, bytes 27..28: p[3]",
    ),
];

#[test]
fn models_have_worlds(rt: HostRuntime) -> Result<(), Fail> {
    for (model, data, wanted) in WORLDS {
        expect(
            model,
            shown_of(rt.alloc(), Shown::World, model, data),
            wanted,
        )?;
    }
    Ok(())
}

/// Models and data, with their networks or the first error.
const NETWORKS: &[(&str, &str, &str)] = &[
    (
        "set S := {3,1} union {2,1}; minimize Cost; node N {i in S}; arc F {i in S} >= 0, <= i, from N[i], to N[i], obj Cost -1;",
        "",
        "Cost | N[]: 0[ 3] 0[ 1] 0[ 2] | F[]: 0[ 3] 0[ 1] 0[ 2] | minimise 0 \
Some(0) to Some(0); Some(0) to Some(0); Some(0) to Some(0); \
0 to 3 at -1 from Some(0) to Some(0); 0 to 1 at -1 from Some(1) to Some(1); 0 to 2 at -1 from Some(2) to Some(2);",
    ),
    (
        "param u; node A: 1 <= net_in <= 4; node B: net_out >= 2; arc X >= -3, <= u, from B, to A; arc Y >= 0, <= 9, to B; \
maximize Gain: 2 * X - Y + 7;",
        "param u := 5;",
        "Gain | A B: 0[] 1[] | X Y: 0[] 1[] | maximise 7 Some(1) to Some(4); None to Some(-2); \
-3 to 5 at 2 from Some(1) to Some(0); 0 to 9 at -1 from None to Some(1);",
    ),
    (
        "minimize C; node A: 4 <= net_in <= 2;",
        "",
        "E54 NodeCrossed in the model, bytes 17..18: A",
    ),
    (
        "minimize C; node A;",
        "param q := 1;",
        "E30 NoSuchName in the data, bytes 6..7: q",
    ),
    (
        "set S; check: 1 in S; minimize C;",
        "set S := 2;",
        "E35 CheckFailed in the model, bytes 14..20",
    ),
];

#[test]
fn models_have_networks(rt: HostRuntime) -> Result<(), Fail> {
    for (model, data, wanted) in NETWORKS {
        expect(
            model,
            shown_of(rt.alloc(), Shown::Network, model, data),
            wanted,
        )?;
    }
    Ok(())
}
