//! The kinds of errors, with their numbers and names.

ghost use Rattle.std.specs.Prelude.{◌≡◌};
ghost use Rattle.net_base.specs.ErrorCodes.{number_of, name_of};

use std::fmt;

/// The errors in a model or its data: in their tokens (E01 to E07), in the grammar and the names of
/// the model (E10 to E16), in the statements of the data (E20 to E22), in the data for declared
/// names and in values (E30 to E40), and in nodes, arcs and objectives (E50 to E61).
#[derive(Clone, Copy, PartialEq, Eq)]
pub enum ErrorCode {
    /// E01: `param a @ 3;`
    BadCharacter,
    /// E02: `'New York`
    OpenString,
    /// E03: `set A; /* the cities`
    OpenComment,
    /// E04: `0.5`
    NotWhole,
    /// E05: `1e13`
    NumeralTooLarge,
    /// E06: A byte that is not part of a UTF-8 character.
    NotUtf8,
    /// E07: A file or a token that exceeds its length limit.
    TextTooLong,
    /// E10: `set set;`
    ModelSyntax,
    /// E11: The token that opens the 65th nesting level.
    TooDeep,
    /// E12: `check: a = 1;` without a declaration of `a` that is allowed here.
    Undeclared,
    /// E13: `set A; set A;`
    Redeclared,
    /// E14: `var x;`, a construct of AMPL that this profile does not support.
    LeftOut,
    /// E15: `from A, to B 2`, a gain factor after the end of an arc.
    Gain,
    /// E16: `node A: net_in = net_in;`
    NetPlace,
    /// E20: A token that is not allowed in a statement, or the end of the file if one is missing:
    /// `param cost 3;`
    DataSyntax,
    /// E21: Cells that do not fill complete rows of their table: `param cost : BOS EWR := PITT 25;`
    RowWidth,
    /// E22: A heading without columns, or without parameters: `param cost : := ;`
    TableWidth,
    /// E30: A name in the data that is not declared, or not as a set or a parameter as the
    /// statement requires.
    NoSuchName,
    /// E31: A second value for a member, a key, a default or a whole set.
    DoubleValue,
    /// E32: A set without data, a parameter without a value at a key of its index set, or `min` or
    /// `max` over nothing.
    NoValue,
    /// E33: A key that is not in a parameter's index set, or an arc in an objective's expression at a
    /// key that its declaration does not have.
    OutsideSet,
    /// E34: A member or a value that its declaration does not allow.
    Restriction,
    /// E35: The condition of a `check` is false.
    CheckFailed,
    /// E36: A number, string, tuple, set or condition of the wrong kind for its position.
    KindMismatch,
    /// E37: A tuple, a key or a set with the wrong number of components.
    Arity,
    /// E38: `div` and `mod` of a negative number or by less than 1; a range with a step of less
    /// than 1.
    DivMod,
    /// E39: A number with absolute value above 1,000,000,000,000.
    ValueTooLarge,
    /// E40: A set or list of more than 1,000,000 tuples.
    TooMany,
    /// E50: `from` or `to` with a node that does not exist.
    NoSuchNode,
    /// E51: An arc without `>=`.
    NoLower,
    /// E52: An arc without `<=`.
    NoUpper,
    /// E53: The lower bound of an arc is above its upper bound.
    ArcCrossed,
    /// E54: No net inflow satisfies the condition of a node.
    NodeCrossed,
    /// E55: An arc with neither `from` nor `to`.
    NoEnds,
    /// E56: A model without an objective.
    NoObjective,
    /// E57: A second objective, if none was chosen.
    TwoObjectives,
    /// E58: An arc in a position that would make the objective nonlinear.
    NotLinear,
    /// E59: More than 10,000 nodes.
    TooManyNodes,
    /// E60: More than 100,000 arcs.
    TooManyArcs,
    /// E61: The chosen objective is not declared.
    NoSuchObjective,
}

impl ErrorCode {
    /// Returns the number of the error, such as 12 for `E12`.
    pub fn number(self) -> u64
        ensures { result ≡ number_of self }
    {
        match self {
            ErrorCode::BadCharacter => 1,
            ErrorCode::OpenString => 2,
            ErrorCode::OpenComment => 3,
            ErrorCode::NotWhole => 4,
            ErrorCode::NumeralTooLarge => 5,
            ErrorCode::NotUtf8 => 6,
            ErrorCode::TextTooLong => 7,
            ErrorCode::ModelSyntax => 10,
            ErrorCode::TooDeep => 11,
            ErrorCode::Undeclared => 12,
            ErrorCode::Redeclared => 13,
            ErrorCode::LeftOut => 14,
            ErrorCode::Gain => 15,
            ErrorCode::NetPlace => 16,
            ErrorCode::DataSyntax => 20,
            ErrorCode::RowWidth => 21,
            ErrorCode::TableWidth => 22,
            ErrorCode::NoSuchName => 30,
            ErrorCode::DoubleValue => 31,
            ErrorCode::NoValue => 32,
            ErrorCode::OutsideSet => 33,
            ErrorCode::Restriction => 34,
            ErrorCode::CheckFailed => 35,
            ErrorCode::KindMismatch => 36,
            ErrorCode::Arity => 37,
            ErrorCode::DivMod => 38,
            ErrorCode::ValueTooLarge => 39,
            ErrorCode::TooMany => 40,
            ErrorCode::NoSuchNode => 50,
            ErrorCode::NoLower => 51,
            ErrorCode::NoUpper => 52,
            ErrorCode::ArcCrossed => 53,
            ErrorCode::NodeCrossed => 54,
            ErrorCode::NoEnds => 55,
            ErrorCode::NoObjective => 56,
            ErrorCode::TwoObjectives => 57,
            ErrorCode::NotLinear => 58,
            ErrorCode::TooManyNodes => 59,
            ErrorCode::TooManyArcs => 60,
            ErrorCode::NoSuchObjective => 61,
        }
    }

    /// Returns the name of the error, such as `Undeclared`.
    pub fn name(self) -> &'static str
        ensures { result.now ≡ name_of self }
    {
        match self {
            ErrorCode::BadCharacter => "BadCharacter",
            ErrorCode::OpenString => "OpenString",
            ErrorCode::OpenComment => "OpenComment",
            ErrorCode::NotWhole => "NotWhole",
            ErrorCode::NumeralTooLarge => "TooLarge",
            ErrorCode::NotUtf8 => "NotUtf8",
            ErrorCode::TextTooLong => "TextTooLong",
            ErrorCode::ModelSyntax => "Syntax",
            ErrorCode::TooDeep => "TooDeep",
            ErrorCode::Undeclared => "Undeclared",
            ErrorCode::Redeclared => "Redeclared",
            ErrorCode::LeftOut => "LeftOut",
            ErrorCode::Gain => "Gain",
            ErrorCode::NetPlace => "NetPlace",
            ErrorCode::DataSyntax => "Syntax",
            ErrorCode::RowWidth => "RowWidth",
            ErrorCode::TableWidth => "TableWidth",
            ErrorCode::NoSuchName => "NoSuchName",
            ErrorCode::DoubleValue => "DoubleValue",
            ErrorCode::NoValue => "NoValue",
            ErrorCode::OutsideSet => "OutsideSet",
            ErrorCode::Restriction => "Restriction",
            ErrorCode::CheckFailed => "CheckFailed",
            ErrorCode::KindMismatch => "KindMismatch",
            ErrorCode::Arity => "Arity",
            ErrorCode::DivMod => "DivMod",
            ErrorCode::ValueTooLarge => "TooLarge",
            ErrorCode::TooMany => "TooMany",
            ErrorCode::NoSuchNode => "NoSuchNode",
            ErrorCode::NoLower => "NoLower",
            ErrorCode::NoUpper => "NoUpper",
            ErrorCode::ArcCrossed => "ArcCrossed",
            ErrorCode::NodeCrossed => "NodeCrossed",
            ErrorCode::NoEnds => "NoEnds",
            ErrorCode::NoObjective => "NoObjective",
            ErrorCode::TwoObjectives => "TwoObjectives",
            ErrorCode::NotLinear => "NotLinear",
            ErrorCode::TooManyNodes => "TooManyNodes",
            ErrorCode::TooManyArcs => "TooManyArcs",
            ErrorCode::NoSuchObjective => "NoSuchObjective",
        }
    }
}

impl fmt::Debug for ErrorCode {
    ghost use Rattle.std.specs.Prelude.{Some};
    ghost use Rattle.net_base.specs.ErrorCodes.{name_of};

    ghost debug_output = { λ d. Some (name_of d) };

    fn fmt<W: fmt::Write>(&self, f: &mut fmt::Formatter<W>) -> fmt::Result {
        f.write_str(self.name())
    }
}

impl fmt::Display for ErrorCode {
    ghost use Rattle.std.specs.Prelude.{Some};
    ghost use Rattle.net_base.specs.ErrorLines.{error_code_shown};

    ghost output = { λ error_code. Some (error_code_shown error_code) };

    #[tactic(auto, using(crate::proofs::TwoDigits::two_digits))]
    /// Writes the code with two digits and the name: `E04 NotWhole`.
    fn fmt<W: fmt::Write>(&self, f: &mut fmt::Formatter<W>) -> fmt::Result {
        let number = self.number();
        let name = self.name();
        write!(f, "E{number:02} {name}")
    }
}
