//! The names and places that a report prints.
use ck_base::Spot;
use ck_lexer::PlaceMap;

/// The name of a function.
#[derive(Debug, Drop)]
pub struct FunctionName {
    /// As it is written in the project. That of a synthetic function is its entry line in brackets, without
    /// the word `entry`: `[main]`, `[thread f]`, `[vector f]`, `[callback S.m]` or `[timer]`.
    pub text: String,
    /// Where the function's name is in its definition, if it has one.
    pub at: Spot,
}

/// What the numbers of a graph are called.
#[derive(Drop)]
pub struct NameBook {
    /// The places of each file, by the file's number.
    pub maps: Vec<PlaceMap>,
    /// The name of each function, by the function's number.
    pub functions: Vec<FunctionName>,
    /// The names of the outside functions, in the order of the settings.
    pub outside: Vec<String>,
}
