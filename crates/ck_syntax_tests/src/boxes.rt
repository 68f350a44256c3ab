//! The calls that take memory, each once with ample memory. Which tree comes of a builder is said by its
//! clause.
use crate::trees::{name, token_at};
use ck_base::OutOfMemory;
use ck_syntax::{
    BracedInit, Controlling, Decl, Declarator, Designation, EnumSpecifier, Enumerator, ForHead,
    ForStart, Init, Parameters, Stmt, StructSpecifier, TypeName,
};
use std::alloc::Global;

fn is_ok<T: Drop>(outcome: Result<T, OutOfMemory>) -> bool {
    outcome.is_ok()
}

fn declarator(alloc: Global) -> Declarator<Global> {
    Declarator::nameless(Vec::new(alloc), Vec::new(alloc))
}

fn type_name(alloc: Global) -> TypeName<Global> {
    TypeName {
        opening: token_at(0),
        specifiers: Vec::new(alloc),
        declarator: declarator(alloc),
        closing: token_at(1),
    }
}

fn for_head() -> ForHead<Global> {
    ForHead {
        opening: token_at(0),
        start: ForStart::empty(token_at(1)),
        test: None,
        semicolon: token_at(2),
        step: Some(name(3)),
        closing: token_at(4),
    }
}

fn controlling() -> Controlling<Global> {
    Controlling {
        opening: token_at(0),
        expr: name(1),
        closing: token_at(2),
    }
}

fn structure(alloc: Global) -> StructSpecifier<Global> {
    StructSpecifier::new(token_at(0), None, token_at(1), Vec::new(alloc), token_at(2))
}

fn enumeration(alloc: Global) -> EnumSpecifier<Global> {
    let last = Enumerator::plain(token_at(2));
    EnumSpecifier::new(
        token_at(0),
        None,
        token_at(1),
        Vec::new(alloc),
        last,
        None,
        token_at(3),
    )
}

fn braced(alloc: Global) -> BracedInit<Global> {
    let last = Init::value(name(1));
    BracedInit::new(token_at(0), Vec::new(alloc), None, last, None, token_at(2))
}

#[test]
fn boxes_of_parts(rt: HostRuntime) {
    let alloc = rt.alloc();
    assert!(rt; is_ok(name(0).boxed(alloc)), "an expression");
    assert!(rt;
        is_ok(Stmt::<Global>::empty(token_at(0)).boxed(alloc)),
        "a statement"
    );
    assert!(rt;
        is_ok(controlling().boxed(alloc)),
        "a controlling expression"
    );
    assert!(rt; is_ok(for_head().boxed(alloc)), "the head of a for");
    assert!(rt; is_ok(declarator(alloc).boxed(alloc)), "a declarator");
    assert!(rt; is_ok(type_name(alloc).boxed(alloc)), "a type name");
    assert!(rt;
        is_ok(Parameters::<Global>::empty().boxed(alloc)),
        "parameters"
    );
    assert!(rt; is_ok(structure(alloc).boxed(alloc)), "a struct");
    assert!(rt; is_ok(enumeration(alloc).boxed(alloc)), "an enum");
    assert!(rt;
        is_ok(braced(alloc).boxed(alloc)),
        "an initialiser in braces"
    );
    assert!(rt;
        is_ok(Designation::new(Vec::new(alloc), token_at(0)).boxed(alloc)),
        "a designation"
    );
    assert!(rt;
        is_ok(Decl::bare(Vec::new(alloc), token_at(0)).boxed(alloc)),
        "a declaration"
    );
}
