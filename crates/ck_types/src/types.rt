//! The types of a project in one table. A type that is made of others names them by their numbers, which are smaller;
//! equal types have one number.
ghost use Rattle.std.specs.Prelude.{◌≡◌, ◌<◌, true, false, [], None, length, take, IfOk};
ghost use Rattle.ck_types.specs.IntegerTypes.{converted};
ghost use Rattle.ck_types.specs.TypeTable as spec;
ghost use Rattle.ck_types.specs.Elements.{HasElements, IsElementOf, array_parts};
ghost use Rattle.ck_types.specs.TypeTable.{IfInteger};

use crate::integer_types::IntegerType;
use ck_base::OutOfMemory;
use indexmap::IndexSet;
use std::alloc::Global;
use std::marker::Model;

/// The number of a type in a table.
#[derive(Clone, Copy, Debug, PartialEq, Eq)]
pub struct TypeId(pub u32);

/// The number of a list of parameters' types in a table.
#[derive(Clone, Copy, Debug, PartialEq, Eq)]
pub struct ParametersId(pub u32);

/// The number of a struct of a project.
#[derive(Clone, Copy, Debug, PartialEq, Eq)]
pub struct StructId(pub u32);

/// Qualifiers (6.7.3); `restrict` has no effect.
#[derive(Clone, Copy, Debug, PartialEq, Eq)]
pub struct Qualifiers {
    /// `const`
    pub constant: bool,
    /// `volatile`
    pub volatile: bool,
}

/// A type over the types before it in a table (6.2.5).
#[derive(Clone, Copy, Debug, PartialEq, Eq)]
pub enum CType {
    /// `void`
    Void,
    /// An integer type, `_Bool` among them. An enumerated type is `int`.
    Integer(IntegerType),
    /// A pointer to a type with qualifiers (6.7.5.1).
    Pointer {
        qualifiers: Qualifiers,
        to: TypeId,
    },
    /// An array of a type with qualifiers, of so many elements or of unknown size (6.7.5.2).
    Array {
        qualifiers: Qualifiers,
        of: TypeId,
        count: Option<u32>,
    },
    /// A struct (6.7.2.1).
    Struct(StructId),
    /// A function: its result with qualifiers, its parameters, and whether `...` is at their end (6.7.5.3).
    Function {
        qualifiers: Qualifiers,
        result: TypeId,
        parameters: ParametersId,
        variadic: bool,
    },
}

/// What a number of a table stands for, over the numbers before it.
#[derive(Clone, Copy, Debug)]
pub enum Node {
    /// A type.
    Type(CType),
    /// The empty list of parameters.
    NoParameters,
    /// A parameter's type before other parameters.
    Parameter {
        /// The type.
        first: TypeId,
        /// The other parameters.
        rest: ParametersId,
    },
}

/// The types of a project, each once; a type is looked up in constant time. It is seen as the list of its nodes;
/// `numbers_stand_for_types` says which types their numbers stand for.
#[derive(Drop)]
pub struct Types {
    nodes: IndexSet<Node>,
}

impl Model for Types {
    ghost use Rattle.std.specs.Prelude.{List};
    ghost use Rattle.ck_types.specs.TypeTable.{IsTable};
    ghost use Rattle.ck_types.specs.declared.types.Node.{Node as TableNode};

    ghost Value = { List TableNode };

    ghost view = { λ t. t.nodes.keys };

    ghost invariant = { λ t. IsTable t.nodes.keys };
}

impl Types {
    /// A table without types.
    pub fn new(alloc: Global) -> Types
        ensures { result ≡ [] }
    {
        Types {
            nodes: IndexSet::new(alloc),
        }
    }

    /// The number of a type, which is added where the table doesn't have it. What it names is in the table.
    pub fn intern(&mut self, of: CType) -> Result<TypeId, OutOfMemory>
        requires { spec.fits_type self.old of ≡ true }
        ensures kept { spec.Extends self.old self.new }
        ensures types { spec.KeepsTypes self.old self.new }
        ensures lists { spec.KeepsLists self.old self.new }
        ensures table { spec.IsTable self.new }
        ensures number { IfOk result (λ id. spec.IsNode self.new id.0 (spec.type_node of)) }
        ensures named { IfOk result (λ id. spec.names_type self.new id.0 ≡ true) }
    {
        Ok(TypeId(place(&mut self.nodes, Node::Type(of))?))
    }

    /// The number of the empty list of parameters.
    pub fn no_parameters(&mut self) -> Result<ParametersId, OutOfMemory>
        ensures kept { spec.Extends self.old self.new }
        ensures types { spec.KeepsTypes self.old self.new }
        ensures lists { spec.KeepsLists self.old self.new }
        ensures table { spec.IsTable self.new }
        ensures number { IfOk result (λ id. spec.IsNode self.new id.0 spec.no_parameters) }
        ensures named { IfOk result (λ id. spec.names_list self.new id.0 ≡ true) }
    {
        Ok(ParametersId(place(&mut self.nodes, Node::NoParameters)?))
    }

    /// The number of a list of parameters: one more type before those of a list.
    pub fn with_parameter(
        &mut self,
        first: TypeId,
        rest: ParametersId,
    ) -> Result<ParametersId, OutOfMemory>
        requires first { spec.names_type self.old first.0 ≡ true }
        requires rest { spec.names_list self.old rest.0 ≡ true }
        ensures kept { spec.Extends self.old self.new }
        ensures types { spec.KeepsTypes self.old self.new }
        ensures lists { spec.KeepsLists self.old self.new }
        ensures table { spec.IsTable self.new }
        ensures number { IfOk result (λ id. spec.IsNode self.new id.0 (spec.parameter_node first rest)) }
        ensures named { IfOk result (λ id. spec.names_list self.new id.0 ≡ true) }
    {
        Ok(ParametersId(place(&mut self.nodes, Node::Parameter { first, rest })?))
    }

    /// A type by its number.
    pub fn node(&self, id: TypeId) -> CType
        requires { spec.names_type self.now id.0 ≡ true }
        ensures node { spec.IsNode self.now id.0 (spec.type_node result) }
        ensures smaller { spec.fits_type (take id.0 self.now) result ≡ true }
        ensures table { spec.IsTable self.now }
    {
        type_in(node_at(&self.nodes, id.0))
    }

    /// What a number stands for: a type, or a list of parameters.
    pub fn entry(&self, number: u32) -> Node
        requires { number < length self.now }
        ensures node { spec.IsNode self.now number result }
        ensures smaller { spec.fits (take number self.now) result ≡ true }
        ensures table { spec.IsTable self.now }
    {
        node_at(&self.nodes, number)
    }

    /// The type of an array's elements through all its dimensions; another type is its own.
    pub fn element_type(&self, id: TypeId) -> TypeId
        requires { spec.names_type self.now id.0 ≡ true }
        ensures named { spec.names_type self.now result.0 ≡ true }
        ensures element { IsElementOf self.now id.0 result.0 }
    {
        let mut at = id;
        while let Some((of, _count)) = array_of(self.node(at)) {
            at = of;
        }
        at
    }

    /// How many elements an array has through all its dimensions, at most 2^64 - 1, where all sizes are known; another
    /// type has 1.
    pub fn element_count(&self, id: TypeId) -> Option<u64>
        requires { spec.names_type self.now id.0 ≡ true }
        ensures { HasElements self.now id.0 result }
    {
        let mut at = id;
        let mut elements: u64 = 1;
        while let Some((of, count)) = array_of(self.node(at)) {
            match count {
                Some(count) => elements = elements.saturating_mul(u64::from(count)),
                None => return None,
            }
            at = of;
        }
        Some(elements)
    }

    /// The first parameter of a list and the others, or none where it is empty.
    pub fn parameter(&self, list: ParametersId) -> Option<(TypeId, ParametersId)>
        requires { spec.names_list self.now list.0 ≡ true }
        ensures node { spec.IsNode self.now list.0 (spec.list_node result) }
        ensures table { spec.IsTable self.now }
    {
        list_in(node_at(&self.nodes, list.0))
    }
}

/// The node of a number.
fn node_at(nodes: &IndexSet<Node>, number: u32) -> Node
    requires { number < length nodes.now.keys }
    ensures { spec.IsNode nodes.now.keys number result }
{
    match nodes.get_index(number as usize) {
        Some(node) => *node,
        None => Node::NoParameters,
    }
}

/// What an array is of, and how many elements it has where that is known.
fn array_of(of: CType) -> Option<(TypeId, Option<u32>)>
    ensures { result ≡ array_parts of }
{
    match of {
        CType::Array { of, count, .. } => Some((of, count)),
        _ => None,
    }
}

/// The type of a node that is one.
fn type_in(node: Node) -> CType
    ensures { spec.is_type node ≡ true → spec.type_node result ≡ node }
{
    match node {
        Node::Type(of) => of,
        _ => CType::Void,
    }
}

/// The list of a node that is one.
fn list_in(node: Node) -> Option<(TypeId, ParametersId)>
    ensures { spec.is_type node ≡ false → spec.list_node result ≡ node }
{
    match node {
        Node::Parameter { first, rest } => Some((first, rest)),
        _ => None,
    }
}

/// A value converted to an integer type: for `_Bool` whether it is other than 0 (6.3.1.2), else what is left of it in
/// the type's bits, which wraps where the type is signed (6.3.1.3).
pub fn convert(value: i128, to: &CType) -> i128
    requires { spec.is_integer to.now ≡ true }
    ensures { IfInteger to.now (λ of. result ≡ converted of value) }
{
    match to {
        CType::Integer(of) => of.convert(value),
        _ => value,
    }
}

/// The number of a node, which is added where the table doesn't have it.
fn place(nodes: &mut IndexSet<Node>, node: Node) -> Result<u32, OutOfMemory>
    requires table { spec.IsTable nodes.old.keys }
    requires fits { spec.fits nodes.old.keys node ≡ true }
    ensures kept { spec.Extends nodes.old.keys nodes.new.keys }
    ensures types { spec.KeepsTypes nodes.old.keys nodes.new.keys }
    ensures lists { spec.KeepsLists nodes.old.keys nodes.new.keys }
    ensures table { spec.IsTable nodes.new.keys }
    ensures number { IfOk result (λ id. spec.IsNode nodes.new.keys id node) }
{
    let (number, _) = nodes.insert_full(node)?;
    match u32::try_from(number) {
        Ok(number) => Ok(number),
        Err(_) => Err(OutOfMemory),
    }
}
