//! Where specifiers are.

/// Where specifiers are (C99 6.7.1, 6.7.2.1, 6.7.5.3, 6.7.6); `specs/Places.antt` has the grammar's word for each.
#[derive(Clone, Copy, Debug, PartialEq, Eq)]
pub enum Place {
    /// In a type name or a member.
    InType,
    /// In a parameter.
    InParameter,
    /// In a declaration in a block.
    InBlock,
    /// In a declaration at file scope.
    InFile,
}
