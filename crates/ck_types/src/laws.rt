//! Laws about the definitions, each the contract of a function that does nothing.
ghost use Rattle.ck_types.specs.Compatibility.{IsReflexive, IsSymmetric};
ghost use Rattle.ck_types.specs.ConstantTypes.{ConstantsHaveTypes};
ghost use Rattle.ck_types.specs.Ranges.{BinaryIsInRange, ConvertsIntoRange, ConvertsToItself, UnaryIsInRange};
ghost use Rattle.ck_types.specs.TableLaws.{EqualTypesHaveOneNumber, NumbersStandForTypes, TablesKeepNumbers};

/// A converted value is in the range of its type.
pub fn converts_into_range()
    ensures { ConvertsIntoRange }
{}

/// A value that a type can represent stays when it is converted to it.
pub fn converts_to_itself()
    ensures { ConvertsToItself }
{}

/// What an operator makes of values is in the range of its type.
pub fn operators_stay_in_range()
    ensures binary { BinaryIsInRange }
    ensures unary { UnaryIsInRange }
{}

/// What is an integer constant within 64 bits by its bytes has a type and a value, and nothing else has.
pub fn constants_have_types()
    ensures { ConstantsHaveTypes }
{}

/// Each type is compatible with itself.
pub fn compatible_is_reflexive()
    ensures { IsReflexive }
{}

/// Of two types either both are compatible with the other or none is.
pub fn compatible_is_symmetric()
    ensures { IsSymmetric }
{}

/// A number of a table stands for what its node makes of what the numbers in it stand for.
pub fn numbers_stand_for_types()
    ensures { NumbersStandForTypes }
{}

/// A table that grows keeps what its numbers stand for.
pub fn tables_keep_numbers()
    ensures { TablesKeepNumbers }
{}

/// Equal types have one number, and so do equal lists of parameters, where no two numbers name one struct.
pub fn equal_types_have_one_number()
    ensures { EqualTypesHaveOneNumber }
{}
