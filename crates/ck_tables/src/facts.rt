//! What is known of a value, and of a declarator, by the numbers of types.
use ck_base::Token;
use ck_prog::{Defining, Role};
use ck_types::{Qualifiers, TypeId};

/// The number of a declaration in a project's table of declarations.
#[derive(Clone, Copy, Debug, PartialEq, Eq)]
pub struct EntryId(pub u32);

/// The number of a member in a project's table of members.
#[derive(Clone, Copy, Debug, PartialEq, Eq)]
pub struct MemberId(pub u32);

/// The number of a name in a project's list of names.
#[derive(Clone, Copy, Debug, PartialEq, Eq)]
pub struct NameId(pub u32);

/// The number of a value in a project's table of values.
#[derive(Clone, Copy, Debug, PartialEq, Eq)]
pub struct ValueId(pub u32);

/// Whether an expression is an integer constant expression (6.6), and of which value: one of its type.
#[derive(Clone, Copy)]
pub enum Constancy {
    /// no
    Varying,
    /// yes but without a value, as `1/0`
    Valueless,
    /// yes, of the value of this number
    Known(ValueId),
}

/// What is known of a value.
#[derive(Clone, Copy)]
pub struct Facts {
    /// its type before any conversion; none where C99 gives none
    pub type_id: Option<TypeId>,
    /// whether it is constant
    pub constancy: Constancy,
    /// the first token of its expression
    pub first: Token,
    /// the qualifiers of its type
    pub qualifiers: Qualifiers,
    /// it designates an object (6.3.2.1)
    pub lvalue: bool,
    /// it is a null pointer constant (6.3.2.3)
    pub null: bool,
    /// its value is an address constant or a number (6.6); or it designates an object whose address is one
    pub fixed: bool,
    /// it designates a part of an object of storage class register (6.7.1)
    pub register: bool,
    /// how it is used by the expression around it
    pub role: Role,
    /// a call is evaluated with it
    pub holds_call: bool,
}

/// How many bytes an object has, and which number divides its address (6.2.5, 6.5.3.4).
#[derive(Clone, Copy)]
pub struct Layout {
    /// bytes
    pub size: u64,
    /// bytes
    pub alignment: u64,
}

/// A type with its qualifiers.
#[derive(Clone, Copy)]
pub struct QualifiedType {
    /// its number
    pub type_id: TypeId,
    /// its qualifiers
    pub qualifiers: Qualifiers,
}

/// Whose name a declarator declares, if any.
#[derive(Clone, Copy)]
pub enum Owner {
    /// none: the declarator of a type name (6.7.6)
    TypeName,
    /// a member's
    Member,
    /// a parameter's, of a prototype or of a definition
    Parameter(Defining),
    /// that of a declaration or a definition
    Declaration,
}

/// What is known of a declarator.
#[derive(Clone, Copy)]
pub struct DeclaratorFacts {
    /// whose name it declares
    pub owner: Owner,
    /// its name, else the first token of its specifiers
    pub spot: Token,
    /// its first token, else the first token of its specifiers
    pub first: Token,
    /// the type that it makes; none where a part of it is missing
    pub made: Option<QualifiedType>,
    /// an array of elements, or a function with a result, of a type that can't be so
    pub impossible: bool,
    /// its type is complete after it (6.2.5)
    pub complete: bool,
}
