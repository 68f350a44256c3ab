//! Whether a declarator has a name.
ghost use Rattle.std.specs.Prelude.{◌≡◌};
ghost use Rattle.ck_grammar.specs.Fitting.{may_be_abstract};
ghost use Rattle.ck_type_readers.specs.Views.{naming_word, takes_sort};

use ck_grammar::Sort;

/// Whether a declarator declares a name; `specs/Views.antt` has the grammar's word for each.
#[derive(Clone, Copy, Debug, PartialEq, Eq)]
pub enum Naming {
    /// A new one (6.7.5).
    NewName,
    /// A member, which may be called as a typedef name (6.7.2.1).
    MemberName,
    /// A parameter, which may do without (6.7.5.3).
    MaybeName,
    /// None (6.7.6).
    NoName,
}

impl Naming {
    /// A declarator without a name may be there.
    pub fn may_be_abstract(self) -> bool
        ensures { result ≡ may_be_abstract (naming_word self) }
    {
        matches!(self, Naming::MaybeName | Naming::NoName)
    }

    /// The name of a declarator may be a token that is this to a declaration.
    pub(crate) fn takes(self, sort: Sort) -> bool
        ensures { result ≡ takes_sort (naming_word self) sort }
    {
        match self {
            Naming::NewName | Naming::MaybeName => matches!(sort, Sort::Plain),
            Naming::MemberName => matches!(sort, Sort::Plain | Sort::TypeName),
            Naming::NoName => false,
        }
    }
}
