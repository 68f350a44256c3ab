//! What the declaration of a name says beside its type (C99 6.2.2, 6.2.4, 6.9.2).

/// Whether declarations of one name in other scopes or files mean one thing (6.2.2).
#[derive(Clone, Copy, Debug, PartialEq, Eq)]
pub enum Linkage {
    /// each declaration has its own
    NoLinkage,
    /// one thing in the file
    Internal,
    /// one thing in the project
    External,
}

/// Whether a declaration makes what it names (6.7, 6.9.2).
#[derive(Clone, Copy, Debug, PartialEq, Eq)]
pub enum Defining {
    /// it is made elsewhere
    Declares,
    /// it is made here, unless another declaration of the file does
    Tentative,
    /// it is made here
    Defines,
}

/// How long an object lives (6.2.4), and whether its address may be taken (6.7.1).
#[derive(Clone, Copy, Debug, PartialEq, Eq)]
pub enum Storage {
    /// as long as the program
    Static,
    /// as long as its block
    Automatic,
    /// as long as its block; no `&` of it
    Register,
}
