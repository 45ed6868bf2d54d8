//! The size limit of results, and values as numbers.

ghost use Rattle.std.specs.Prelude.{◌≡◌, ◌≤◌, ◌+◌, ◌-◌, ◌^◌, ◌+ℤ◌, ◌-ℤ◌, ◌*ℤ◌, ℕ, IsTrue, IfOk, IfSome, Ok, Some, unsigned_abs};
ghost use Rattle.net_tree.specs.Spans as trees;
ghost use Rattle.net_tree.specs.View.{tree};
ghost use Rattle.net_expr.specs.Limits.{is_small};
ghost use Rattle.net_expr.specs.Numbers as numbers;
ghost use Rattle.net_expr.specs.Operators as operators;
ghost use Rattle.net_base.specs.Outcomes.{Refines, Outcome, and_then, rejected, Yields};
ghost use Rattle.net_base.specs.declared.error_code.ErrorCode.TheVariants.{KindMismatch};
ghost use Rattle.net_expr.specs.declared.value.Value.{Value as Found};
ghost use Rattle.net_expr.specs.declared.value.Value.TheVariants.{Truth};
ghost use Rattle.net_expr.specs.Rows as rows;
ghost use Rattle.net_expr.specs.Values as values;

use crate::value::{Value, reject_tree};
use net_base::{ErrorCode, Fault};
use net_lex::VALUE_LIMIT;
use net_sets::Member;
use net_tree::{BinOp, Expr, Reduction};

fn narrow(number: &i128) -> i64
    requires { IsTrue (is_small number.now) }
    ensures { result ≡ number.now }
{
    *number as i64
}

/// Returns the result of arithmetic, or an error if it exceeds the limit.
pub(crate) fn sized<'w, 's>(whole: &Expr<'_>, number: i128) -> Result<Value<'w, 's>, Fault>
    ensures { Yields (numbers.sized (trees.span_of (tree whole.now)) number) result }
{
    if is_small_wide(&number) {
        Ok(Value::One(Member::Number(narrow(&number))))
    } else {
        Err(reject_tree(ErrorCode::ValueTooLarge, whole))
    }
}

/// Returns a value as a number, or an error if it is not one.
pub(crate) fn number_of(whole: &Expr<'_>, value: &Value<'_, '_>) -> Result<i64, Fault>
    ensures { Yields (numbers.number (trees.span_of (tree whole.now)) value.now) result }
{
    match value {
        Value::One(Member::Number(number)) => Ok(*number),
        _ => Err(reject_tree(ErrorCode::KindMismatch, whole)),
    }
}

/// Returns the result of an evaluation as a number.
fn number_found(whole: &Expr<'_>, value: Result<Value<'_, '_>, Fault>) -> Result<i64, Fault>
    ensures { (wanted : Outcome Found) → Refines wanted value.entry → Refines (and_then wanted (numbers.number (trees.span_of (tree whole.now)))) result }
{
    match value {
        Ok(value) => number_of(whole, &value),
        Err(fault) => Err(fault),
    }
}

fn sum_of(a: &i64, b: &i64) -> i128
    ensures { result ≡ a.now +ℤ b.now }
{
    i128::from(*a) + i128::from(*b)
}

fn difference_of(a: &i64, b: &i64) -> i128
    ensures { result ≡ a.now -ℤ b.now }
{
    i128::from(*a) - i128::from(*b)
}

fn product_of(a: &i64, b: &i64) -> i128
    ensures { result ≡ a.now *ℤ b.now }
{
    i128::from(*a) * i128::from(*b)
}

fn plus<'w, 's>(whole: &Expr<'_>, a: &i64, b: &i64) -> Result<Value<'w, 's>, Fault>
    ensures { Yields (numbers.plus (trees.span_of (tree whole.now)) a.now b.now) result }
{
    sized(whole, sum_of(a, b))
}

fn minus<'w, 's>(whole: &Expr<'_>, a: &i64, b: &i64) -> Result<Value<'w, 's>, Fault>
    ensures { Yields (numbers.less (trees.span_of (tree whole.now)) a.now b.now) result }
{
    sized(whole, difference_of(a, b))
}

fn times<'w, 's>(whole: &Expr<'_>, a: &i64, b: &i64) -> Result<Value<'w, 's>, Fault>
    ensures { Yields (numbers.times (trees.span_of (tree whole.now)) a.now b.now) result }
{
    sized(whole, product_of(a, b))
}

fn divides(a: &i64, b: &i64) -> bool
    ensures { result ≡ numbers.divides a.now b.now }
{
    *a >= 0 && *b >= 1
}

fn quotient<'w, 's>(whole: &Expr<'_>, a: &i64, b: &i64) -> Result<Value<'w, 's>, Fault>
    ensures { Yields (numbers.quotient (trees.span_of (tree whole.now)) a.now b.now) result }
{
    if divides(a, b) {
        Ok(Value::One(Member::Number(*a / *b)))
    } else {
        Err(reject_tree(ErrorCode::DivMod, whole))
    }
}

fn remainder<'w, 's>(whole: &Expr<'_>, a: &i64, b: &i64) -> Result<Value<'w, 's>, Fault>
    ensures { Yields (numbers.remainder (trees.span_of (tree whole.now)) a.now b.now) result }
{
    if divides(a, b) {
        Ok(Value::One(Member::Number(*a % *b)))
    } else {
        Err(reject_tree(ErrorCode::DivMod, whole))
    }
}

/// Returns whether two numbers satisfy a comparison.
fn ordered(operation: BinOp, a: &i64, b: &i64) -> bool
    ensures { result ≡ operators.ordered operation a.now b.now }
{
    match operation {
        BinOp::Less => *a < *b,
        BinOp::AtMost => *a <= *b,
        BinOp::Greater => *a > *b,
        BinOp::AtLeast => *a >= *b,
        _ => false,
    }
}

fn compared<'w, 's>(operation: BinOp, a: &i64, b: &i64) -> Result<Value<'w, 's>, Fault>
    ensures { Yields (Ok (Truth (operators.ordered operation a.now b.now))) result }
{
    Ok(Value::Truth(ordered(operation, a, b)))
}

/// Returns the error for an operator that does not take numbers. It is a function of its own
/// because the borrow checker does not accept a join of a passed-on result and one built in place.
fn of_no_numbers<'w, 's>(whole: &Expr<'_>) -> Result<Value<'w, 's>, Fault>
    ensures { Yields (rejected KindMismatch (trees.span_of (tree whole.now))) result }
{
    Err(reject_tree(ErrorCode::KindMismatch, whole))
}

/// Applies an operator to two numbers.
fn of_two<'w, 's>(
    operation: BinOp,
    whole: &Expr<'_>,
    a: &i64,
    b: &i64,
) -> Result<Value<'w, 's>, Fault>
    ensures { Yields (operators.of_two operation (trees.span_of (tree whole.now)) a.now b.now) result }
{
    match operation {
        BinOp::Plus => plus(whole, a, b),
        BinOp::Minus => minus(whole, a, b),
        BinOp::Times => times(whole, a, b),
        BinOp::Div => quotient(whole, a, b),
        BinOp::Mod => remainder(whole, a, b),
        BinOp::Less | BinOp::AtMost | BinOp::Greater | BinOp::AtLeast => {
            compared(operation, a, b)
        }
        _ => of_no_numbers(whole),
    }
}

/// Applies an operator to two values that must be numbers.
pub(crate) fn of_numbers<'w, 's>(
    operation: BinOp,
    whole: &Expr<'_>,
    x: &Value<'_, 's>,
    y: &Value<'_, 's>,
) -> Result<Value<'w, 's>, Fault>
    ensures { Yields (operators.of_numbers (trees.span_of (tree whole.now)) (operators.of_two operation (trees.span_of (tree whole.now))) x.now y.now) result }
{
    let a = number_of(whole, x)?;
    let b = number_of(whole, y)?;
    of_two(operation, whole, &a, &b)
}

fn turned(minus: bool, number: &i64) -> i128
    ensures { result ≡ numbers.turned minus number.now }
{
    if minus {
        -i128::from(*number)
    } else {
        i128::from(*number)
    }
}

/// Returns the number with this sign.
pub(crate) fn with_sign<'w, 's>(
    whole: &Expr<'_>,
    minus: bool,
    value: Result<Value<'_, 's>, Fault>,
) -> Result<Value<'w, 's>, Fault>
    ensures { (wanted : Outcome Found) → Refines wanted value.entry
        → Refines (and_then wanted (values.with_sign (trees.span_of (tree whole.now)) minus)) result }
{
    let number = number_found(whole, value)?;
    sized(whole, turned(minus, &number))
}

/// Adds a value to a reduction.
pub(crate) fn one_more(
    whole: &Expr<'_>,
    reduction: Reduction,
    so_far: &Option<i128>,
    value: Result<Value<'_, '_>, Fault>,
) -> Result<Option<i128>, Fault>
    requires { IfSome so_far.now (λ a. unsigned_abs a ≤ 2 ^ 127 - 2 ^ 64) }
    ensures value { (wanted : Outcome Found) → Refines wanted value.entry
        → Refines (and_then wanted (λ v. and_then (numbers.number (trees.span_of (tree whole.now)) v)
        (λ n. Ok (Some (numbers.gathered reduction so_far.now n))))) result }
    ensures small { (k : ℕ) → IfSome so_far.now (λ a. unsigned_abs a ≤ k) → IfOk result (λ o. IfSome o (λ a. unsigned_abs a ≤ k + 2 ^ 63)) }
{
    let number = number_found(whole, value)?;
    Ok(Some(gathered(reduction, so_far, &number)))
}

/// Returns the reduction of the numbers so far and one more.
fn gathered(reduction: Reduction, so_far: &Option<i128>, number: &i64) -> i128
    requires { IfSome so_far.now (λ a. unsigned_abs a ≤ 2 ^ 127 - 2 ^ 64) }
    ensures value { result ≡ numbers.gathered reduction so_far.now number.now }
    ensures small { (k : ℕ) → IfSome so_far.now (λ a. unsigned_abs a ≤ k) → unsigned_abs result ≤ k + 2 ^ 63 }
{
    match so_far {
        None => i128::from(*number),
        Some(so_far) => gathered_two(reduction, so_far, number),
    }
}

fn gathered_two(reduction: Reduction, so_far: &i128, number: &i64) -> i128
    requires { unsigned_abs so_far.now ≤ 2 ^ 127 - 2 ^ 64 }
    ensures value { result ≡ numbers.gathered reduction (Some so_far.now) number.now }
    ensures small { unsigned_abs result ≤ unsigned_abs so_far.now + 2 ^ 63 }
{
    match reduction {
        Reduction::Sum => *so_far + i128::from(*number),
        Reduction::Min => (*so_far).min(i128::from(*number)),
        Reduction::Max => (*so_far).max(i128::from(*number)),
    }
}

fn nothing_reduced<'w, 's>(whole: &Expr<'_>, reduction: Reduction) -> Result<Value<'w, 's>, Fault>
    ensures { Yields (rows.nothing_reduced (trees.span_of (tree whole.now)) reduction) result }
{
    match reduction {
        Reduction::Sum => Ok(Value::One(Member::Number(0))),
        Reduction::Min | Reduction::Max => Err(reject_tree(ErrorCode::NoValue, whole)),
    }
}

/// Returns the final value of a reduction.
pub(crate) fn reduced_to<'w, 's>(
    whole: &Expr<'_>,
    reduction: Reduction,
    so_far: &Option<i128>,
) -> Result<Value<'w, 's>, Fault>
    ensures { Yields (rows.reduced_to (trees.span_of (tree whole.now)) reduction so_far.now) result }
{
    match so_far {
        None => nothing_reduced(whole, reduction),
        Some(number) => sized(whole, *number),
    }
}

/// Returns whether the absolute value of a number is at most 10^12.
#[tactic(auto, unfolding(crate::specs::Limits::is_small))]
pub fn is_small(number: &i64) -> bool
    ensures { result ≡ is_small number.now }
{
    number.unsigned_abs() <= VALUE_LIMIT
}

/// Returns the same for a result of arithmetic, before it is stored in 64 bits.
#[tactic(auto, unfolding(crate::specs::Limits::is_small))]
pub fn is_small_wide(number: &i128) -> bool
    ensures { result ≡ is_small number.now }
{
    number.unsigned_abs() <= u128::from(VALUE_LIMIT)
}
