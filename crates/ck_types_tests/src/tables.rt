//! Tables of types: equal types get one number, and a number gives its type again.
ghost use Rattle.std.specs.Prelude.{◌≡◌, true, IfOk};
ghost use Rattle.ck_types.specs.TypeTable as spec;

use ck_base::OutOfMemory;
use ck_types::{CType, IntegerType, Qualifiers, StructId, TypeId, Types};
use std::alloc::Global;

const PLAIN: Qualifiers = Qualifiers {
    constant: false,
    volatile: false,
};

fn integer(types: &mut Types, of: IntegerType) -> Result<TypeId, OutOfMemory>
    ensures types { spec.KeepsTypes types.old types.new }
    ensures lists { spec.KeepsLists types.old types.new }
    ensures named { IfOk result (λ id. spec.names_type types.new id.0 ≡ true) }
{
    types.intern(CType::Integer(of))
}

fn array(types: &mut Types, of: TypeId, count: Option<u32>) -> Result<TypeId, OutOfMemory>
    requires { spec.names_type types.old of.0 ≡ true }
    ensures types { spec.KeepsTypes types.old types.new }
    ensures lists { spec.KeepsLists types.old types.new }
    ensures named { IfOk result (λ id. spec.names_type types.new id.0 ≡ true) }
{
    types.intern(CType::Array {
        qualifiers: PLAIN,
        of,
        count,
    })
}

/// Whether equal types get one number, and different ones two.
fn are_told_apart(alloc: Global) -> Result<bool, OutOfMemory> {
    let mut types = Types::new(alloc);
    let int = integer(&mut types, IntegerType::Int)?;
    let long = integer(&mut types, IntegerType::Long)?;
    let again = integer(&mut types, IntegerType::Int)?;
    let void = types.intern(CType::Void)?;
    let first = types.intern(CType::Struct(StructId(1)))?;
    let second = types.intern(CType::Struct(StructId(2)))?;
    Ok(int == again && int != long && void != int && first != second)
}

#[test]
fn equal_types_have_one_number(rt: HostRuntime) {
    assert!(rt;
        are_told_apart(rt.alloc()) == Ok(true),
        "two types have one number, or one has two"
    );
}

/// Whether pointers, arrays and functions are told apart by all that they are made of.
fn derived_are_told_apart(alloc: Global) -> Result<bool, OutOfMemory> {
    let mut types = Types::new(alloc);
    let int = integer(&mut types, IntegerType::Int)?;
    let pointer = types.intern(CType::Pointer {
        qualifiers: PLAIN,
        to: int,
    })?;
    let to_constant = types.intern(CType::Pointer {
        qualifiers: Qualifiers {
            constant: true,
            volatile: false,
        },
        to: int,
    })?;
    let three = array(&mut types, int, Some(3))?;
    let unknown = array(&mut types, int, None)?;
    let again = array(&mut types, int, Some(3))?;
    Ok(pointer != to_constant && three != unknown && three == again && pointer != three)
}

#[test]
fn derived_types(rt: HostRuntime) {
    assert!(rt;
        derived_are_told_apart(rt.alloc()) == Ok(true),
        "two types have one number, or one has two"
    );
}

/// Whether a function's number gives its parts again.
fn gives_parts(alloc: Global) -> Result<bool, OutOfMemory> {
    let mut types = Types::new(alloc);
    let int = integer(&mut types, IntegerType::Int)?;
    let char = integer(&mut types, IntegerType::Char)?;
    let none = types.no_parameters()?;
    let one = types.with_parameter(char, none)?;
    let two = types.with_parameter(int, one)?;
    let again = types.with_parameter(char, none)?;
    let made = CType::Function {
        qualifiers: PLAIN,
        result: int,
        parameters: two,
        variadic: true,
    };
    let function = types.intern(made)?;
    Ok(
        types.node(function) == made
            && one == again
            && types.parameter(two) == Some((int, one))
            && types.parameter(one) == Some((char, none))
            && types.parameter(none) == None,
    )
}

#[test]
fn parts_of_functions(rt: HostRuntime) {
    assert!(rt;
        gives_parts(rt.alloc()) == Ok(true),
        "a function or a list gives other parts"
    );
}

/// Whether arrays of arrays have these elements: 3 times 4 of `int`, 3 times an unknown number, and more than 2^64.
fn have_elements(alloc: Global) -> Result<bool, OutOfMemory> {
    let mut types = Types::new(alloc);
    let int = integer(&mut types, IntegerType::Int)?;
    let four = array(&mut types, int, Some(4))?;
    let matrix = array(&mut types, four, Some(3))?;
    let unknown = array(&mut types, int, None)?;
    let partly = array(&mut types, unknown, Some(3))?;
    let large = array(&mut types, int, Some(4_294_967_295))?;
    let larger = array(&mut types, large, Some(4_294_967_295))?;
    let largest = array(&mut types, larger, Some(2))?;
    Ok(
        types.element_count(int) == Some(1)
            && types.element_count(matrix) == Some(12)
            && types.element_count(partly) == None
            && types.element_count(larger) == Some(18_446_744_065_119_617_025)
            && types.element_count(largest) == Some(18_446_744_073_709_551_615)
            && types.element_type(matrix) == int
            && types.element_type(partly) == int
            && types.element_type(int) == int,
    )
}

#[test]
fn elements_of_arrays(rt: HostRuntime) {
    assert!(rt;
        have_elements(rt.alloc()) == Ok(true),
        "an array has other elements"
    );
}
