//! What a project declares: each declaration, with what its name means by the numbers of other tables.
use crate::facts::{Layout, MemberId, NameId, QualifiedType};
use ck_base::Token;
use ck_prog::{Defining, Linkage, Storage};
use ck_types::{StructId, TypeId};
use smallvec::SmallVec;

/// Which struct one is over all files: by its tag, else by the first typedef name of its declaration, else, in the body
/// of another, by that one, else by its place.
#[derive(Clone, Copy)]
pub enum StructName {
    /// by its tag
    Tag(NameId),
    /// by a typedef name
    Typedef(NameId),
    /// by a file and an offset there
    Place { file: u32, offset: u32 },
    /// by the struct in whose body it is, which has a smaller number, and how many members are before it there
    Member { of: StructId, before: u32 },
    /// by its tag, which a parameter list declares without a body, and by a file and an offset there
    Parameter { tag: NameId, file: u32, offset: u32 },
}

/// A member of a struct (6.7.2.1).
#[derive(Clone, Copy)]
pub struct MemberInfo {
    /// the struct
    pub of: StructId,
    /// its type, where there is one
    pub made: Option<QualifiedType>,
    /// bytes before it, where that is known
    pub offset: Option<u64>,
    /// the struct up to and with it, without bytes after it
    pub front: Option<Layout>,
    /// up to and with it some member is const, or has a member that is (6.3.2.1)
    pub constant: bool,
}

/// What a name is declared as. A type, value or size is missing where it was refused.
#[derive(Clone, Copy)]
pub enum MeaningInfo {
    /// a variable
    Variable {
        made: Option<QualifiedType>,
        linkage: Linkage,
        defining: Defining,
        storage: Storage,
    },
    /// a function
    Function {
        type_id: Option<TypeId>,
        linkage: Linkage,
        defining: Defining,
    },
    /// a type (6.7.7)
    TypeName {
        made: Option<QualifiedType>,
    },
    /// an enumeration constant (6.7.2.2)
    Enumerator {
        value: Option<i128>,
    },
    /// a struct's tag (6.7.2.3)
    StructTag {
        of: StructId,
    },
    /// an enumeration's tag (6.7.2.3)
    EnumTag,
    /// a member
    Member {
        member: MemberId,
    },
    /// from here on the file knows the struct's members: the size of all, and whether some is const (6.7.2.1)
    Completed {
        of: StructId,
        layout: Option<Layout>,
        constant: bool,
    },
    /// a label (6.8.1)
    Label,
}

/// A declaration of a name.
#[derive(Drop)]
pub struct EntryInfo {
    /// the number of its file
    pub file: u32,
    /// the scopes that are open there, the innermost first, each by how many declarations are before it
    pub scope: SmallVec<u32, 4>,
    /// its name
    pub name: NameId,
    /// where the name is
    pub at: Token,
    /// what the name means
    pub meaning: MeaningInfo,
}
