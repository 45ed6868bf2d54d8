//! The calls on inputs in memory with options: an objective that is chosen, and the lean form.

use crate::calls::shown;
use crate::comparison::expect;
use net_driver::{Compiled, Options, Outcome, compile_with, solve_model_with};
use std::alloc::{AllocError, Global};
use std::test::Fail;

/// The text of a compiled model, then its problem and its link.
fn compilation_shown(alloc: Global, compiled: &Compiled<'_>) -> Result<String, AllocError> {
    let mut out = String::from_utf8_lossy(alloc, compiled.text.as_bytes())?;
    let supplies = compiled.problem.supplies.as_slice();
    out.push_str(format!(in alloc; "{supplies:?}")?.as_str())?;
    for arc in compiled.problem.arcs.as_slice() {
        let (src, dst, low, cap, cost) = (arc.src, arc.dst, arc.low, arc.cap, arc.cost);
        out.push_str(format!(in alloc; " {src}-{dst} {low}..{cap} at {cost}")?.as_str())?;
    }
    let (numbers, offsets) = (
        compiled.link.numbers.as_slice(),
        compiled.link.offsets.as_slice(),
    );
    let constant = compiled.link.constant;
    let link = format!(in alloc; "; {numbers:?} {offsets:?} {constant}")?;
    out.push_str(link.as_str())?;
    Ok(out)
}

fn compiled(alloc: Global, options: &Options<'_>, model: &[u8]) -> Result<String, AllocError> {
    match compile_with(alloc, options, model, b"") {
        Ok(answer) => compilation_shown(alloc, &answer),
        Err(fault) => shown(alloc, Err(fault)),
    }
}

/// The text of an outcome, then the assignment and its value, or the flags of the cut.
fn outcome_shown(alloc: Global, outcome: &Outcome) -> Result<String, AllocError> {
    let mut out = String::from_utf8_lossy(alloc, outcome.text())?;
    let rest = match outcome {
        Outcome::Displayed {
            text: _,
            assignment,
            value,
        } => {
            let assignment = assignment.as_slice();
            format!(in alloc; "{assignment:?} {value}")?
        }
        Outcome::Infeasible {
            text: _,
            flags,
            side: _,
        } => {
            let flags = flags.as_slice();
            format!(in alloc; "{flags:?}")?
        }
    };
    out.push_str(rest.as_str())?;
    Ok(out)
}

fn solved(alloc: Global, options: &Options<'_>, model: &[u8]) -> Result<String, AllocError> {
    match solve_model_with(alloc, options, model, b"") {
        Ok(answer) => outcome_shown(alloc, &answer.outcome),
        Err(fault) => shown(alloc, Err(fault)),
    }
}

const COST: Options<'static> = Options {
    objective: Some("Cost"),
    lean: false,
    key: None,
};

const GAIN: Options<'static> = Options {
    objective: Some("Gain"),
    lean: false,
    key: None,
};

const LOSS: Options<'static> = Options {
    objective: Some("Loss"),
    lean: false,
    key: None,
};

const NONE: Options<'static> = Options {
    objective: None,
    lean: false,
    key: None,
};

const LEAN: Options<'static> = Options {
    objective: None,
    lean: true,
    key: None,
};

/// What is worth 3 to buy and 1 to sell.
const TWO: &[u8] =
    b"minimize Cost;\nmaximize Gain;\nnode A: net_in >= 2;\narc X >= 0, <= 6, to A, obj Cost 3, obj Gain 1;";

/// The same, but the objective `Gain` has an error, which only counts if it is chosen.
const BROKEN: &[u8] =
    b"minimize Cost;\nmaximize Gain;\nnode A: net_in >= 2;\narc X >= 0, <= 6, to A, obj Cost 3, obj Gain 7 div 0;";

/// A fixed arc next to a free one.
const FIXED: &[u8] =
    b"minimize Cost;\nnode A: net_out = 7;\nnode B: net_in = 7;\narc P >= 2, <= 2, from A, to B, obj Cost 5;\n\
arc Q >= 1, <= 9, from A, to B, obj Cost 3;";

const OF_COST: &str =
    "c constant 0\nc sign 1\nc node 1 A\nc arc 1 0 X\np min 2 2\nn 1 -2\nn 2 2\na 2 1 0 6 3\na 1 2 0 4 0\n\
[-2, 2] 1-0 0..6 at 3 0-1 0..4 at 0; [1] [0] 0";

const OF_GAIN: &str =
    "c constant 0\nc sign -1\nc node 1 A\nc arc 1 0 X\np min 2 2\nn 1 -2\nn 2 2\na 2 1 0 6 -1\na 1 2 0 4 0\n\
[-2, 2] 1-0 0..6 at -1 0-1 0..4 at 0; [1] [0] 0";

const OF_FIXED: &str =
    "c constant 13\nc sign 1\nc node 1 A\nc node 2 B\nc arc 0 2 P\nc arc 1 1 Q\np min 3 1\nn 1 4\nn 2 -4\na 1 2 0 8 3\n\
[4, -4, 0] 0-1 0..8 at 3; [0, 1] [2, 1] 13";

/// Options and models, with the compiled text or the error, and with the plan or the error.
const CHOICES: &[(Options<'static>, &[u8], &str, &str)] = &[
    (COST, TWO, OF_COST, "Cost = 6\nX = 2\n[2] 6"),
    (GAIN, TWO, OF_GAIN, "Gain = 6\nX = 6\n[6] 6"),
    (
        NONE,
        TWO,
        "E57 TwoObjectives model 2:10 Gain",
        "E57 TwoObjectives model 2:10 Gain",
    ),
    (
        LOSS,
        TWO,
        "E61 NoSuchObjective model 4:48 Loss",
        "E61 NoSuchObjective model 4:48 Loss",
    ),
    (COST, BROKEN, OF_COST, "Cost = 6\nX = 2\n[2] 6"),
    (
        GAIN,
        BROKEN,
        "E38 DivMod model 4:46",
        "E38 DivMod model 4:46",
    ),
    (LEAN, FIXED, OF_FIXED, "Cost = 25\nP = 2\nQ = 5\n[2, 5] 25"),
];

#[test]
fn models_are_compiled_as_chosen(rt: HostRuntime) -> Result<(), Fail> {
    for (options, model, wanted, _) in CHOICES {
        expect(wanted, compiled(rt.alloc(), options, model), wanted)?;
    }
    Ok(())
}

#[test]
fn models_are_solved_as_chosen(rt: HostRuntime) -> Result<(), Fail> {
    for (options, model, _, wanted) in CHOICES {
        expect(wanted, solved(rt.alloc(), options, model), wanted)?;
    }
    Ok(())
}
