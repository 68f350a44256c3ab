//! Nodes of a table of types beside each other, and what they are hashed by.
ghost use Rattle.std.specs.Prelude.{◌≡◌};
ghost use Rattle.ck_types.specs.NodeEquality as equality;
ghost use Rattle.ck_types.specs.SameNodes as spec;
ghost use Rattle.ck_types.specs.Types.{same_truth as truths, same_integer as integers};

use crate::integer_types::IntegerType;
use crate::types::{CType, Node, Qualifiers};
use std::hash::{Hash, Hasher};

fn same_truth(a: bool, b: bool) -> bool
    ensures { result ≡ truths a b }
{
    if a { b } else { !b }
}

fn same_integer(a: IntegerType, b: IntegerType) -> bool
    ensures { result ≡ integers a b }
{
    a.rank() == b.rank() && same_truth(a.is_signed(), b.is_signed())
}

fn same_qualifiers(a: Qualifiers, b: Qualifiers) -> bool
    ensures { result ≡ spec.same_written a b }
{
    same_truth(a.constant, b.constant) && same_truth(a.volatile, b.volatile)
}

fn same_count(a: Option<u32>, b: Option<u32>) -> bool
    ensures { result ≡ spec.same_count a b }
{
    match (a, b) {
        (None, None) => true,
        (Some(n), Some(m)) => n == m,
        _ => false,
    }
}

/// Whether two types are one, by the numbers that they name.
fn same_type(a: CType, b: CType) -> bool
    ensures { result ≡ spec.same_type a b }
{
    match (a, b) {
        (CType::Void, CType::Void) => true,
        (CType::Integer(t), CType::Integer(u)) => same_integer(t, u),
        (
            CType::Pointer { qualifiers, to },
            CType::Pointer {
                qualifiers: others,
                to: other,
            },
        ) => same_qualifiers(qualifiers, others) && to.0 == other.0,
        (
            CType::Array {
                qualifiers,
                of,
                count,
            },
            CType::Array {
                qualifiers: others,
                of: other,
                count: number,
            },
        ) => same_qualifiers(qualifiers, others) && of.0 == other.0 && same_count(count, number),
        (CType::Struct(s), CType::Struct(t)) => s.0 == t.0,
        (
            CType::Function {
                qualifiers,
                result,
                parameters,
                variadic,
            },
            CType::Function {
                qualifiers: others,
                result: other,
                parameters: list,
                variadic: more,
            },
        ) => {
            same_qualifiers(qualifiers, others)
                && result.0 == other.0
                && parameters.0 == list.0
                && same_truth(variadic, more)
        }
        _ => false,
    }
}

/// Whether two nodes are one.
fn same_node(a: Node, b: Node) -> bool
    ensures { result ≡ spec.same_node a b }
{
    match (a, b) {
        (Node::Type(t), Node::Type(u)) => same_type(t, u),
        (Node::NoParameters, Node::NoParameters) => true,
        (
            Node::Parameter { first, rest },
            Node::Parameter {
                first: other,
                rest: others,
            },
        ) => first.0 == other.0 && rest.0 == others.0,
        _ => false,
    }
}

/// What a node is hashed by: its kind, and two numbers of what it is made of.
fn digest(node: Node) -> (u8, u32, u32)
    ensures { result ≡ spec.digest node }
{
    match node {
        Node::NoParameters => (0, 0, 0),
        Node::Parameter { first, rest } => (1, first.0, rest.0),
        Node::Type(CType::Void) => (2, 0, 0),
        Node::Type(CType::Integer(of)) => (3, u32::from(of.rank()), 0),
        Node::Type(CType::Pointer { to, .. }) => (4, to.0, 0),
        Node::Type(CType::Array { of, count, .. }) => (5, of.0, count.unwrap_or(0)),
        Node::Type(CType::Struct(identity)) => (6, identity.0, 0),
        Node::Type(
            CType::Function {
                result,
                parameters,
                ..
            },
        ) => (7, result.0, parameters.0),
    }
}

impl PartialEq for Node {
    ghost eq = { spec.same_node };

    ghost laws = { equality.partial };

    fn eq(&self, other: &Node) -> bool {
        same_node(*self, *other)
    }
}

impl Eq for Node {
    ghost laws = { equality.whole };
}

impl Hash for Node {
    ghost hash_input = { spec.writes };

    ghost respects_eq = { equality.writes-equal };

    fn hash<H: Hasher>(&self, state: &mut H) {
        let (kind, first, second) = digest(*self);
        state.write_u8(kind);
        state.write_u32(first);
        state.write_u32(second);
    }
}
