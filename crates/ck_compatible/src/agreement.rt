//! What two nodes of a table have to have in common, apart from what they name, and which numbers they name.
ghost use Rattle.std.specs.Prelude.{◌≡◌};
ghost use Rattle.ck_compatible.specs.Agreement as spec;
ghost use Rattle.ck_types.specs.SameNodes.{same_written};
ghost use Rattle.ck_types.specs.Types as plain;

use ck_types::{CType, IntegerType, Node, Qualifiers};

fn same_truth(a: bool, b: bool) -> bool
    ensures { result ≡ plain.same_truth a b }
{
    if a { b } else { !b }
}

fn same_integer(a: IntegerType, b: IntegerType) -> bool
    ensures { result ≡ plain.same_integer a b }
{
    a.rank() == b.rank() && same_truth(a.is_signed(), b.is_signed())
}

fn same_qualifiers(a: Qualifiers, b: Qualifiers) -> bool
    ensures { result ≡ same_written a b }
{
    same_truth(a.constant, b.constant) && same_truth(a.volatile, b.volatile)
}

/// Two sizes agree where one of them is unknown.
fn same_size(a: Option<u32>, b: Option<u32>) -> bool
    ensures { result ≡ plain.same_size a b }
{
    match (a, b) {
        (Some(n), Some(m)) => n == m,
        _ => true,
    }
}

fn types_agree(a: CType, b: CType) -> bool
    ensures { result ≡ spec.types_agree a b }
{
    match (a, b) {
        (CType::Void, CType::Void) => true,
        (CType::Integer(t), CType::Integer(u)) => same_integer(t, u),
        (
            CType::Pointer { qualifiers, .. },
            CType::Pointer {
                qualifiers: others,
                ..
            },
        ) => same_qualifiers(qualifiers, others),
        (
            CType::Array {
                qualifiers,
                count,
                ..
            },
            CType::Array {
                qualifiers: others,
                count: number,
                ..
            },
        ) => same_qualifiers(qualifiers, others) && same_size(count, number),
        (CType::Struct(s), CType::Struct(t)) => s.0 == t.0,
        (
            CType::Function {
                qualifiers,
                variadic,
                ..
            },
            CType::Function {
                qualifiers: others,
                variadic: more,
                ..
            },
        ) => same_qualifiers(qualifiers, others) && same_truth(variadic, more),
        _ => false,
    }
}

/// Whether two nodes agree, apart from the numbers of types and lists that they name.
pub fn agree(a: Node, b: Node) -> bool
    ensures { result ≡ spec.agree a b }
{
    match (a, b) {
        (Node::Type(t), Node::Type(u)) => types_agree(t, u),
        (Node::NoParameters, Node::NoParameters) => true,
        (Node::Parameter { .. }, Node::Parameter { .. }) => true,
        _ => false,
    }
}

/// The number of the type that a node is made of, or of the first parameter of a list.
pub fn named_type(node: Node) -> Option<u32>
    ensures { result ≡ spec.named_type node }
{
    match node {
        Node::Type(CType::Pointer { to, .. }) => Some(to.0),
        Node::Type(CType::Array { of, .. }) => Some(of.0),
        Node::Type(CType::Function { result, .. }) => Some(result.0),
        Node::Parameter { first, .. } => Some(first.0),
        _ => None,
    }
}

/// The number of a function's list of parameters, or of a list after its first parameter.
pub fn named_list(node: Node) -> Option<u32>
    ensures { result ≡ spec.named_list node }
{
    match node {
        Node::Type(CType::Function { parameters, .. }) => Some(parameters.0),
        Node::Parameter { rest, .. } => Some(rest.0),
        _ => None,
    }
}
