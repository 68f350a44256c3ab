//! Name spaces (C99 6.2.3).

/// A name space in which names are looked up by scopes. Members and labels aren't: they have name spaces of their own.
#[derive(Clone, Copy, Debug, PartialEq, Eq)]
pub enum Space {
    /// variables, functions, typedef names and enumeration constants
    Ordinary,
    /// the tags of structs and enumerations
    Tag,
}
