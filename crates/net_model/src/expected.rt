//! The sorts of tokens that the grammar of models expects.

ghost use Rattle.std.specs.Prelude.{◌≡◌};
ghost use Rattle.net_tree.specs.Precedence.{of_operands};
ghost use Rattle.net_tree.specs.WellFormed.{joins};
ghost use Rattle.net_tree.specs.Role.{is_not};
ghost use Rattle.net_model.specs.Expressions.{ends_braces};
ghost use Rattle.net_model.specs.Reading.{is_sort};

use net_tree::{Relation, Role, precedence};

/// A sort of token that is expected.
#[derive(Clone, Copy)]
pub enum Expected {
    Name,
    Number,
    Open,
    Close,
    OpenBrace,
    CloseBrace,
    OpenSquare,
    CloseSquare,
    Comma,
    Colon,
    Semicolon,
    If,
    Then,
    Else,
    /// `in`, `within`
    Membership,
    /// `=`, `<=`, `>=`
    Bound,
    Sign,
    Net,
}

/// Returns whether a token of this role is of the sort.
pub(crate) fn is_sort(sort: Expected, role: Role) -> bool
    ensures { result ≡ is_sort sort role }
{
    match sort {
        Expected::Name => matches!(role, Role::Name),
        Expected::Number => matches!(role, Role::Number),
        Expected::Open => matches!(role, Role::Open),
        Expected::Close => matches!(role, Role::Close),
        Expected::OpenBrace => matches!(role, Role::OpenBrace),
        Expected::CloseBrace => matches!(role, Role::CloseBrace),
        Expected::OpenSquare => matches!(role, Role::OpenSquare),
        Expected::CloseSquare => matches!(role, Role::CloseSquare),
        Expected::Comma => matches!(role, Role::Comma),
        Expected::Colon => matches!(role, Role::Colon),
        Expected::Semicolon => matches!(role, Role::Semicolon),
        Expected::If => matches!(role, Role::If),
        Expected::Then => matches!(role, Role::Then),
        Expected::Else => matches!(role, Role::Else),
        Expected::Membership => matches!(role, Role::Relation(Relation::In | Relation::Within)),
        Expected::Bound => matches!(
            role,
            Role::Relation(Relation::Equal | Relation::AtMost | Relation::AtLeast)
        ),
        Expected::Sign => matches!(role, Role::Sign),
        Expected::Net => matches!(role, Role::Net),
    }
}

/// Returns the maximum precedence of the operands of an operator with this precedence.
fn operand_precedence(own: u8) -> u8
    ensures { result ≡ of_operands own }
{
    match own {
        0 => 0,
        _ => own - 1,
    }
}

/// Returns whether a token of this role joins operands of precedence `joining`, after `count`
/// links.
pub(crate) fn joins(joining: u8, count: usize, role: Role) -> bool
    ensures { result ≡ joins joining count role }
{
    match role {
        Role::Comma => joining == precedence::COMMA,
        Role::Joining(own) => joining == operand_precedence(own),
        Role::Sign => joining == precedence::PRODUCT,
        Role::Range => joining == precedence::SUM && count == 0,
        Role::By => joining == precedence::SUM && count == 1,
        Role::Relation(_) | Role::Not => joining == precedence::UNION && count == 0,
        _ => false,
    }
}

pub(crate) fn is_not(role: Role) -> bool
    ensures { result ≡ is_not role }
{
    matches!(role, Role::Not)
}

/// Returns whether braces that continue with a token of this role have no items.
pub(crate) fn ends_braces(role: Role) -> bool
    ensures { result ≡ ends_braces role }
{
    matches!(role, Role::Colon | Role::CloseBrace)
}
