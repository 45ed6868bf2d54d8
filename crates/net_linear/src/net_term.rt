//! Occurrences of the net inflow in a side of a node's condition.

ghost use Rattle.std.specs.Prelude.{◌≡◌, if◌then◌else◌};
ghost use Rattle.net_tree.specs.Operations.{has_minus, is_outflow};
ghost use Rattle.net_tree.specs.View.{tree, links_of};
ghost use Rattle.net_linear.specs.NetTerms as terms;
ghost use Rattle.net_linear.specs.Signs.{is_sign};

use net_tree::{BinOp, Expr, LinkedOperand, NetWord, Sign};

/// How the net inflow of a node occurs in a term or a side of its condition.
#[derive(Clone, Copy)]
pub enum NetTerm {
    /// It does not occur.
    Absent,
    /// It is added, as in `net_in` and `- net_out`.
    Inflow,
    /// It is subtracted, as in `net_out` and `- net_in`.
    Outflow,
    /// It occurs twice, which the grammar does not allow.
    Unclear,
}

fn has_minus(sign: &Option<Sign<'_>>) -> bool
    ensures { result ≡ has_minus sign.now }
{
    match sign {
        None => false,
        Some(sign) => sign.is_minus(),
    }
}

fn with_sign(minus: bool, term: NetTerm) -> NetTerm
    ensures { result ≡ terms.with_sign minus term }
{
    if minus { negated(term) } else { term }
}

fn negated(term: NetTerm) -> NetTerm
    ensures { result ≡ terms.negated term }
{
    match term {
        NetTerm::Absent => NetTerm::Absent,
        NetTerm::Inflow => NetTerm::Outflow,
        NetTerm::Outflow => NetTerm::Inflow,
        NetTerm::Unclear => NetTerm::Unclear,
    }
}

fn net_word(sign: &Option<Sign<'_>>, word: &NetWord<'_>) -> NetTerm
    ensures { result ≡ terms.with_sign (has_minus sign.now) (terms.with_sign (is_outflow word.now) NetTerm.Inflow) }
{
    with_sign(
        has_minus(sign),
        with_sign(word.is_outflow(), NetTerm::Inflow),
    )
}

/// Returns how the net inflow occurs in a term.
#[tactic(auto, using(net_tree::proofs::Views::views))]
fn net_term(term: &Expr<'_>) -> NetTerm
    ensures { result ≡ terms.net_term (tree term.now) }
{
    match term {
        Expr::Net(parts) => {
            let (sign, word) = parts.get();
            net_word(sign, word)
        }
        Expr::Leaf(_) | Expr::Indexed(_) | Expr::Parens(_) | Expr::Tuple(_) => NetTerm::Absent,
        Expr::Negated(_) | Expr::Braced(_) | Expr::Signed(_) => NetTerm::Absent,
        Expr::Reduction(_, _) | Expr::Chain(_, _) | Expr::If(_, _, _) => NetTerm::Absent,
    }
}

fn beside(a: NetTerm, b: NetTerm) -> NetTerm
    ensures { result ≡ terms.beside a b }
{
    match (a, b) {
        (NetTerm::Absent, b) => b,
        (a, NetTerm::Absent) => a,
        _ => NetTerm::Unclear,
    }
}

fn behind(op: BinOp, so_far: NetTerm, term: NetTerm) -> NetTerm
    ensures { result ≡ terms.behind op so_far term }
{
    match op {
        BinOp::Minus => beside(so_far, negated(term)),
        _ => beside(so_far, term),
    }
}

fn net_terms(links: &[LinkedOperand<'_>], first: NetTerm) -> NetTerm
    ensures { result ≡ terms.net_terms (links_of links.now) first }
{
    let mut so_far = first;
    for link in links {
        so_far = behind(link.operator.op(), so_far, net_term(&link.operand));
    }
    so_far
}

/// Returns whether the operator is `+` or `-`.
pub(crate) fn is_sign(op: BinOp) -> bool
    ensures { result ≡ is_sign op }
{
    matches!(op, BinOp::Plus | BinOp::Minus)
}

/// Returns whether all operators are `+` and `-`.
fn are_terms(links: &[LinkedOperand<'_>]) -> bool
    ensures { result ≡ terms.are_terms (links_of links.now) }
{
    for link in links {
        if !is_sign(link.operator.op()) {
            return false;
        }
    }
    true
}

fn net_chain(first: &Expr<'_>, more: &[LinkedOperand<'_>]) -> NetTerm
    ensures { result ≡ if terms.are_terms (links_of more.now) then terms.net_terms (links_of more.now) (terms.net_term (tree first.now)) else NetTerm.Absent }
{
    if are_terms(more) {
        net_terms(more, net_term(first))
    } else {
        NetTerm::Absent
    }
}

/// Returns how the net inflow occurs in a side.
#[tactic(auto, using(net_tree::proofs::Views::views))]
pub(crate) fn net_side(side: &Expr<'_>) -> NetTerm
    ensures { result ≡ terms.net_side (tree side.now) }
{
    match side {
        Expr::Chain(_, operands) => {
            let series = operands.get();
            net_chain(&series.first, series.more.as_slice())
        }
        Expr::Leaf(_) | Expr::Indexed(_) | Expr::Parens(_) | Expr::Tuple(_) => NetTerm::Absent,
        Expr::Negated(_) | Expr::Braced(_) | Expr::Signed(_) => NetTerm::Absent,
        Expr::Reduction(_, _) | Expr::If(_, _, _) => NetTerm::Absent,
        Expr::Net(_) => net_term(side),
    }
}
