//! The levels of precedence of C99 6.5, from the tightest to the loosest, as the standard calls an
//! expression of the level (`specs/Levels.antt`).

/// Cast expressions, and what binds tighter (6.5.1 to 6.5.4).
pub const CAST: u8 = 0;
/// `*` `/` `%` (6.5.5).
pub const MULTIPLICATIVE: u8 = 1;
/// `+` `-` (6.5.6).
pub const ADDITIVE: u8 = 2;
/// `<<` `>>` (6.5.7).
pub const SHIFT: u8 = 3;
/// `<` `>` `<=` `>=` (6.5.8).
pub const RELATIONAL: u8 = 4;
/// `==` `!=` (6.5.9).
pub const EQUALITY: u8 = 5;
/// `&` (6.5.10).
pub const BITWISE_AND: u8 = 6;
/// `^` (6.5.11).
pub const EXCLUSIVE_OR: u8 = 7;
/// `|` (6.5.12).
pub const INCLUSIVE_OR: u8 = 8;
/// `&&` (6.5.13).
pub const LOGICAL_AND: u8 = 9;
/// `||` (6.5.14).
pub const LOGICAL_OR: u8 = 10;
/// `? :` (6.5.15); a constant expression is one of these (6.6).
pub const CONDITIONAL: u8 = 11;
/// `=` `*=` and so on (6.5.16).
pub const ASSIGNMENT: u8 = 12;
/// `,` (6.5.17).
pub const COMMA: u8 = 13;
