//! Compatible and composite types (C99 6.2.7): rows of declarations of one name, worked by hand from the standard.
ghost use Rattle.std.specs.Prelude.{◌≡◌, true, IfOk};
ghost use Rattle.ck_types.specs.TypeTable as spec;

use ck_base::OutOfMemory;
use ck_compatible::compatible;
use ck_composite::joined;
use ck_types::{CType, IntegerType, Qualifiers, TypeId, Types};
use std::alloc::Global;

const PLAIN: Qualifiers = Qualifiers {
    constant: false,
    volatile: false,
};

const CONSTANT: Qualifiers = Qualifiers {
    constant: true,
    volatile: false,
};

fn array(types: &mut Types, of: TypeId, count: Option<u32>) -> Result<TypeId, OutOfMemory>
    requires { spec.names_type types.old of.0 ≡ true }
    ensures types { spec.KeepsTypes types.old types.new }
    ensures lists { spec.KeepsLists types.old types.new }
    ensures named { IfOk result (λ id. spec.names_type types.new id.0 ≡ true) }
{
    types.intern(CType::Array {
        qualifiers: PLAIN,
        of,
        count,
    })
}

fn pointer(types: &mut Types, qualifiers: Qualifiers, to: TypeId) -> Result<TypeId, OutOfMemory>
    requires { spec.names_type types.old to.0 ≡ true }
    ensures types { spec.KeepsTypes types.old types.new }
    ensures lists { spec.KeepsLists types.old types.new }
    ensures named { IfOk result (λ id. spec.names_type types.new id.0 ≡ true) }
{
    types.intern(CType::Pointer { qualifiers, to })
}

/// A function of two parameters.
fn function(
    types: &mut Types,
    result_type: TypeId,
    first: TypeId,
    second: TypeId,
    variadic: bool,
) -> Result<TypeId, OutOfMemory>
    requires outcome { spec.names_type types.old result_type.0 ≡ true }
    requires first { spec.names_type types.old first.0 ≡ true }
    requires second { spec.names_type types.old second.0 ≡ true }
    ensures types { spec.KeepsTypes types.old types.new }
    ensures lists { spec.KeepsLists types.old types.new }
    ensures named { IfOk result (λ id. spec.names_type types.new id.0 ≡ true) }
{
    let none = types.no_parameters()?;
    let last = types.with_parameter(second, none)?;
    let parameters = types.with_parameter(first, last)?;
    types.intern(CType::Function {
        qualifiers: PLAIN,
        result: result_type,
        parameters,
        variadic,
    })
}

/// Whether two types are joined to this one, and compatible where there is one.
fn join_to(types: &mut Types, alloc: Global, a: TypeId, b: TypeId, wanted: Option<TypeId>) -> bool
    requires first { spec.names_type types.old a.0 ≡ true }
    requires second { spec.names_type types.old b.0 ≡ true }
    ensures types { spec.KeepsTypes types.old types.new }
    ensures lists { spec.KeepsLists types.old types.new }
{
    let Ok(are_compatible) = compatible(types, alloc, a, b) else {
        return false;
    };
    let Ok(found) = joined(types, alloc, a, b) else {
        return false;
    };
    found == wanted && are_compatible == wanted.is_some()
}

/// `int [3]` and `int []`, both ways, and beside `int [4]` and `long [3]` (6.7.5.2).
fn arrays_join(alloc: Global) -> Result<bool, OutOfMemory> {
    let mut types = Types::new(alloc);
    let int = types.intern(CType::Integer(IntegerType::Int))?;
    let long = types.intern(CType::Integer(IntegerType::Long))?;
    let three = array(&mut types, int, Some(3))?;
    let unknown = array(&mut types, int, None)?;
    let four = array(&mut types, int, Some(4))?;
    let longs = array(&mut types, long, Some(3))?;
    Ok(
        join_to(&mut types, alloc, three, unknown, Some(three))
            && join_to(&mut types, alloc, unknown, three, Some(three))
            && join_to(&mut types, alloc, unknown, unknown, Some(unknown))
            && join_to(&mut types, alloc, three, four, None)
            && join_to(&mut types, alloc, three, longs, None),
    )
}

#[test]
fn arrays(rt: HostRuntime) {
    assert!(rt;
        arrays_join(rt.alloc()) == Ok(true),
        "two arrays are joined to another type"
    );
}

/// Pointers to `int []` and `int [3]`, to `const int` and `int` (6.7.5.1).
fn pointers_join(alloc: Global) -> Result<bool, OutOfMemory> {
    let mut types = Types::new(alloc);
    let int = types.intern(CType::Integer(IntegerType::Int))?;
    let three = array(&mut types, int, Some(3))?;
    let unknown = array(&mut types, int, None)?;
    let to_three = pointer(&mut types, CONSTANT, three)?;
    let to_unknown = pointer(&mut types, CONSTANT, unknown)?;
    let to_int = pointer(&mut types, PLAIN, int)?;
    let to_constant = pointer(&mut types, CONSTANT, int)?;
    Ok(
        join_to(&mut types, alloc, to_unknown, to_three, Some(to_three))
            && join_to(&mut types, alloc, to_int, to_constant, None)
            && join_to(&mut types, alloc, to_int, to_three, None),
    )
}

#[test]
fn pointers(rt: HostRuntime) {
    assert!(rt;
        pointers_join(rt.alloc()) == Ok(true),
        "two pointers are joined to another type"
    );
}

/// `int (*f(int (*)[], int (*)[3]))[]` and `int (*f(int (*)[3], int (*)[]))[3]`, of which each says what the other
/// doesn't, as in the example of 6.2.7; and functions that differ by `...` or a parameter (6.7.5.3).
fn functions_join(alloc: Global) -> Result<bool, OutOfMemory> {
    let mut types = Types::new(alloc);
    let int = types.intern(CType::Integer(IntegerType::Int))?;
    let three = array(&mut types, int, Some(3))?;
    let unknown = array(&mut types, int, None)?;
    let known = pointer(&mut types, PLAIN, three)?;
    let open_ended = pointer(&mut types, PLAIN, unknown)?;
    let one = function(&mut types, open_ended, open_ended, known, false)?;
    let other = function(&mut types, known, known, open_ended, false)?;
    let whole = function(&mut types, known, known, known, false)?;
    let more = function(&mut types, known, known, known, true)?;
    Ok(
        join_to(&mut types, alloc, one, other, Some(whole))
            && join_to(&mut types, alloc, other, one, Some(whole))
            && join_to(&mut types, alloc, one, more, None),
    )
}

#[test]
fn functions(rt: HostRuntime) {
    assert!(rt;
        functions_join(rt.alloc()) == Ok(true),
        "two functions are joined to another type"
    );
}
