//! Precedence levels of trees and operators: a greater number binds less tightly. Atoms and signed
//! operands have 0. An operator joins operands that bind more tightly than itself.

/// The operands of a list, joined by commas. A list has no precedence of its own.
pub const COMMA: u8 = 0;
/// `sum {i in A} a[i]`
pub const REDUCTION: u8 = 1;
/// `*`, `div`, `mod`
pub const PRODUCT: u8 = 2;
/// `+`, `-`
pub const SUM: u8 = 3;
/// `..`
pub const RANGE: u8 = 4;
/// `cross`
pub const CROSS: u8 = 5;
/// `inter`
pub const INTER: u8 = 6;
/// `union`, `diff`, `symdiff`
pub const UNION: u8 = 7;
/// comparisons: `=`, `<=`, `in`, `within` and the others
pub const RELATION: u8 = 8;
/// `and`
pub const AND: u8 = 9;
/// `or`
pub const OR: u8 = 10;
