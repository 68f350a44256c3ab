//! Declaration specifiers, the members of a struct and enumerators: the types, and a builder for each production.
ghost use Rattle.std.specs.Prelude.{◌≡◌, IfOk};
ghost use Rattle.ck_grammar.specs.Trees as plain;
ghost use Rattle.ck_syntax.specs.ExpressionViews.{expr_tree, specifier_before, specifier_trees, struct_before};
ghost use Rattle.ck_syntax.specs.ExpressionViews.{enum_before, member_before, member_trees, declarator_tree};
ghost use Rattle.ck_syntax.specs.ExpressionViews.{declarator_trees, last_enumerator, enumerator_before};
ghost use Rattle.ck_syntax.specs.ExpressionViews.{earlier_enumerator_before, enumerator_trees};

use crate::declarators::{Declarator, NextDeclarator};
use crate::expressions::Expr;
use ck_base::{OutOfMemory, Token};
use std::alloc::Allocator;

/// A declaration specifier (C99 6.7), or one of a type name or a member.
#[cycle(trees)]
pub enum Specifier<A: Allocator> {
    /// A storage class, a qualifier, `inline` or a type word.
    Word(Token),
    /// A typedef name.
    TypedefName(Token),
    /// `struct` or `enum`, and its tag.
    Tagged { keyword: Token, tag: Token },
    /// `struct` with its members.
    Struct(Box<StructSpecifier<A>, A>),
    /// `enum` with its enumerators.
    Enum(Box<EnumSpecifier<A>, A>),
}

/// `struct` [tag] `{` members `}` (6.7.2.1).
#[cycle(trees)]
pub struct StructSpecifier<A: Allocator> {
    pub keyword: Token,
    pub tag: Option<Token>,
    pub opening: Token,
    pub members: Vec<Member<A>, A>,
    pub closing: Token,
}

/// `enum` [tag] `{` enumerators `}` (6.7.2.2): those before a comma and others, the last one, and maybe a comma. Its
/// enumerators are those of `earlier` in order, and `last`; the law `enum_before-parts` of the ruleset `views` says so.
#[cycle(trees)]
pub struct EnumSpecifier<A: Allocator> {
    pub keyword: Token,
    pub tag: Option<Token>,
    pub opening: Token,
    pub earlier: Vec<EarlierEnumerator<A>, A>,
    pub last: Enumerator<A>,
    pub comma: Option<Token>,
    pub closing: Token,
}

/// A member declaration of a struct (6.7.2.1). Its declarators are `first`, and those of `others` in order; the law
/// `member_before-parts` of the ruleset `views` says so.
#[cycle(trees)]
pub struct Member<A: Allocator> {
    pub specifiers: Vec<Specifier<A>, A>,
    pub first: Declarator<A>,
    pub others: Vec<NextDeclarator<A>, A>,
    pub semicolon: Token,
}

/// An enumerator (6.7.2.2).
#[cycle(trees)]
pub enum Enumerator<A: Allocator> {
    /// A name.
    Plain(Token),
    /// A name `=` conditional expression.
    Valued {
        name: Token,
        equals: Token,
        value: Box<Expr<A>, A>,
    },
}

/// An enumerator and the comma after it, before another one.
#[cycle(trees)]
pub struct EarlierEnumerator<A: Allocator> {
    pub enumerator: Enumerator<A>,
    pub comma: Token,
}

// Drops are written by hand: a derived one is written out wherever a tree is let go, here and in the crates above.
impl<A: Allocator> Drop for Specifier<A> {
    #[cycle(trees)]
    fn drop(self) {
        match self {
            Specifier::Word(_token) => {}
            Specifier::TypedefName(_token) => {}
            Specifier::Tagged {
                keyword: _keyword,
                tag: _tag,
            } => {}
            Specifier::Struct(_specifier) => {}
            Specifier::Enum(_specifier) => {}
        }
    }
}

impl<A: Allocator> Drop for StructSpecifier<A> {
    #[cycle(trees)]
    fn drop(self) {
        let StructSpecifier {
            keyword: _keyword,
            tag: _tag,
            opening: _opening,
            members: _members,
            closing: _closing,
        } = self;
    }
}

impl<A: Allocator> Drop for EnumSpecifier<A> {
    #[cycle(trees)]
    fn drop(self) {
        let EnumSpecifier {
            keyword: _keyword,
            tag: _tag,
            opening: _opening,
            earlier: _earlier,
            last: _last,
            comma: _comma,
            closing: _closing,
        } = self;
    }
}

impl<A: Allocator> Drop for Member<A> {
    #[cycle(trees)]
    fn drop(self) {
        let Member {
            specifiers: _specifiers,
            first: _first,
            others: _others,
            semicolon: _semicolon,
        } = self;
    }
}

impl<A: Allocator> Drop for Enumerator<A> {
    #[cycle(trees)]
    fn drop(self) {
        match self {
            Enumerator::Plain(_name) => {}
            Enumerator::Valued {
                name: _name,
                equals: _equals,
                value: _value,
            } => {}
        }
    }
}

impl<A: Allocator> Drop for EarlierEnumerator<A> {
    #[cycle(trees)]
    fn drop(self) {
        let EarlierEnumerator {
            enumerator: _enumerator,
            comma: _comma,
        } = self;
    }
}

#[tactic(auto, using(crate::proofs::Equations::views))]
impl<A: Allocator> Specifier<A> {
    /// A storage class, a qualifier, `inline` or a type word.
    pub fn word(token: Token) -> Specifier<A>
        ensures { (rest : plain.Specifiers) → specifier_before result rest ≡ plain.Word token rest }
    {
        Specifier::Word(token)
    }

    /// A typedef name.
    pub fn typedef_name(token: Token) -> Specifier<A>
        ensures { (rest : plain.Specifiers) → specifier_before result rest ≡ plain.TypedefName token rest }
    {
        Specifier::TypedefName(token)
    }

    /// `struct` or `enum`, and its tag.
    pub fn tagged(keyword: Token, tag: Token) -> Specifier<A>
        ensures { (rest : plain.Specifiers) → specifier_before result rest ≡ plain.Tagged keyword tag rest }
    {
        Specifier::Tagged { keyword, tag }
    }

    /// `struct` with its members.
    pub fn structure(specifier: Box<StructSpecifier<A>, A>) -> Specifier<A>
        ensures { (rest : plain.Specifiers) → specifier_before result rest ≡ struct_before specifier.value rest }
    {
        Specifier::Struct(specifier)
    }

    /// `enum` with its enumerators.
    pub fn enumeration(specifier: Box<EnumSpecifier<A>, A>) -> Specifier<A>
        ensures { (rest : plain.Specifiers) → specifier_before result rest ≡ enum_before specifier.value rest }
    {
        Specifier::Enum(specifier)
    }
}

#[tactic(auto, using(crate::proofs::Equations::views))]
impl<A: Allocator> StructSpecifier<A> {
    /// The specifier in a box, as builders take it.
    pub fn boxed(self, alloc: A) -> Result<Box<StructSpecifier<A>, A>, OutOfMemory>
        ensures { IfOk result (λ boxed. boxed.value ≡ self) }
    {
        Ok(Box::new(alloc, self)?)
    }

    /// `struct` [tag] `{` members `}`
    pub fn new(
        keyword: Token,
        tag: Option<Token>,
        opening: Token,
        members: Vec<Member<A>, A>,
        closing: Token,
    ) -> StructSpecifier<A>
        ensures { (rest : plain.Specifiers) → struct_before result rest
            ≡ plain.Struct keyword tag opening (member_trees members.items) closing rest }
    {
        StructSpecifier {
            keyword,
            tag,
            opening,
            members,
            closing,
        }
    }
}

#[tactic(auto, using(crate::proofs::Equations::views))]
impl<A: Allocator> EnumSpecifier<A> {
    /// The specifier in a box, as builders take it.
    pub fn boxed(self, alloc: A) -> Result<Box<EnumSpecifier<A>, A>, OutOfMemory>
        ensures { IfOk result (λ boxed. boxed.value ≡ self) }
    {
        Ok(Box::new(alloc, self)?)
    }

    /// `enum` [tag] `{` enumerators `}`
    pub fn new(
        keyword: Token,
        tag: Option<Token>,
        opening: Token,
        earlier: Vec<EarlierEnumerator<A>, A>,
        last: Enumerator<A>,
        comma: Option<Token>,
        closing: Token,
    ) -> EnumSpecifier<A>
        ensures { (rest : plain.Specifiers) → enum_before result rest
            ≡ plain.Enum keyword tag opening (enumerator_trees earlier.items last comma) closing rest }
    {
        EnumSpecifier {
            keyword,
            tag,
            opening,
            earlier,
            last,
            comma,
            closing,
        }
    }
}

#[tactic(auto, using(crate::proofs::Equations::views))]
impl<A: Allocator> Member<A> {
    /// Specifiers, a declarator, further ones, `;`
    pub fn new(
        specifiers: Vec<Specifier<A>, A>,
        first: Declarator<A>,
        others: Vec<NextDeclarator<A>, A>,
        semicolon: Token,
    ) -> Member<A>
        ensures { (rest : plain.Members) → member_before result rest
            ≡ plain.Member (specifier_trees specifiers.items) (declarator_tree first)
            (declarator_trees others.items) semicolon rest }
    {
        Member {
            specifiers,
            first,
            others,
            semicolon,
        }
    }
}

#[tactic(auto, using(crate::proofs::Equations::views))]
impl<A: Allocator> Enumerator<A> {
    /// A name.
    pub fn plain(name: Token) -> Enumerator<A>
        ensures last { (comma : _) → last_enumerator result comma ≡ plain.LastOne name comma }
        ensures before { (comma : _) (rest : plain.Enumerators) → enumerator_before result comma rest
            ≡ plain.One name comma rest }
    {
        Enumerator::Plain(name)
    }

    /// A name `=` conditional expression.
    pub fn valued(name: Token, equals: Token, value: Box<Expr<A>, A>) -> Enumerator<A>
        ensures last { (comma : _) → last_enumerator result comma
            ≡ plain.LastValued name equals (expr_tree value.value) comma }
        ensures before { (comma : _) (rest : plain.Enumerators) → enumerator_before result comma rest
            ≡ plain.Valued name equals (expr_tree value.value) comma rest }
    {
        Enumerator::Valued {
            name,
            equals,
            value,
        }
    }
}

impl<A: Allocator> EarlierEnumerator<A> {
    /// An enumerator and the comma after it.
    pub fn new(enumerator: Enumerator<A>, comma: Token) -> EarlierEnumerator<A>
        ensures { earlier_enumerator_before result ≡ enumerator_before enumerator comma }
    {
        EarlierEnumerator { enumerator, comma }
    }
}
