//! The node of a composite type, and its number in a table.
ghost use Rattle.std.specs.Prelude.{◌≡◌, true, IfOk};
ghost use Rattle.ck_composite.specs.CompositeNodes as spec;
ghost use Rattle.ck_types.specs.TypeTable as table;

use ck_base::OutOfMemory;
use ck_types::{CType, Node, ParametersId, TypeId, Types};

/// The number of an array's elements, where a node is one of known size.
fn size_in(node: Node) -> Option<u32>
    ensures { result ≡ spec.size_in node }
{
    match node {
        Node::Type(CType::Array { count, .. }) => count,
        _ => None,
    }
}

/// A type over other parts: of known size where its own or another size is.
fn composite_type(of: CType, size: Option<u32>, part: TypeId, list: ParametersId) -> CType
    ensures { result ≡ spec.composite_type of size part list }
{
    match of {
        CType::Pointer { qualifiers, .. } => CType::Pointer {
            qualifiers,
            to: part,
        },
        CType::Array {
            qualifiers,
            count,
            ..
        } => CType::Array {
            qualifiers,
            of: part,
            count: count.or(size),
        },
        CType::Function {
            qualifiers,
            variadic,
            ..
        } => CType::Function {
            qualifiers,
            result: part,
            parameters: list,
            variadic,
        },
        _ => of,
    }
}

/// The node of the composite of what two nodes stand for, over the composites of their parts (C99 6.2.7).
pub fn composite_node(one: Node, other: Node, part: TypeId, list: ParametersId) -> Node
    ensures { result ≡ spec.composite_node one other part list }
{
    match one {
        Node::Type(of) => Node::Type(composite_type(of, size_in(other), part, list)),
        Node::NoParameters => Node::NoParameters,
        Node::Parameter { .. } => Node::Parameter {
            first: part,
            rest: list,
        },
    }
}

/// The number of a node, which is added where the table doesn't have it. What it names is in the table.
pub fn number_of(types: &mut Types, node: Node) -> Result<u32, OutOfMemory>
    requires { table.fits types.old node ≡ true }
    ensures kept { table.Extends types.old types.new }
    ensures types { table.KeepsTypes types.old types.new }
    ensures lists { table.KeepsLists types.old types.new }
    ensures table { table.IsTable types.new }
    ensures number { IfOk result (λ number. table.IsNode types.new number node) }
{
    match node {
        Node::Type(of) => Ok(types.intern(of)?.0),
        Node::NoParameters => Ok(types.no_parameters()?.0),
        Node::Parameter { first, rest } => Ok(types.with_parameter(first, rest)?.0),
    }
}
