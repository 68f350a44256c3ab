//! Rows of ck_syntax's trees, each with how deep its deepest element nests beside it.
ghost use Rattle.std.specs.Prelude.{◌≡◌, OnOk};
ghost use Rattle.ck_boxes.specs.Depths.{NestBefore};
ghost use Rattle.ck_grammar.specs.Nesting.{operands_nesting, suffixes_nesting, specifiers_nesting, members_nesting};
ghost use Rattle.ck_grammar.specs.Nesting.{declarators_nesting, enumerators_nesting, dims_nesting};
ghost use Rattle.ck_grammar.specs.Nesting.{more_params_nesting};
ghost use Rattle.ck_syntax.specs.ExpressionViews.{operand_before, suffix_before, specifier_before, member_before};
ghost use Rattle.ck_syntax.specs.ExpressionViews.{declarator_before, earlier_enumerator_before, dim_before};
ghost use Rattle.ck_syntax.specs.ExpressionViews.{parameter_before};
ghost use Rattle.ck_syntax.specs.Rows.{row_before};

use crate::depths::deeper;
use ck_base::OutOfMemory;
use ck_syntax::{
    Dim, EarlierEnumerator, Member, NextDeclarator, NextParameter, Operand, Specifier, Suffix,
};
use std::alloc::Allocator;

/// Operators, each with its right operand (6.5.5 to 6.5.14, 6.5.17), and how deep the deepest nests.
#[derive(Drop)]
pub struct MeasuredOperands<A: Allocator> {
    pub row: Vec<Operand<A>, A>,
    pub depth: u16,
    pub ghost measured: { NestBefore operands_nesting (row_before operand_before row.items) depth },
}

impl<A: Allocator> MeasuredOperands<A> {
    /// No elements.
    pub(crate) fn none(alloc: A) -> MeasuredOperands<A>
        ensures { (rest : _) → row_before operand_before result.row.items rest ≡ rest }
    {
        MeasuredOperands {
            row: Vec::new(alloc),
            depth: 0,
        }
    }

    /// An operator and its operand, which nests so deep, after the others.
    pub(crate) fn push(&mut self, operand: Operand<A>, depth: u16) -> Result<(), OutOfMemory>
        requires { NestBefore operands_nesting (operand_before operand) depth }
        ensures { OnOk result ((rest : _) → row_before operand_before self.new.row.items rest
            ≡ row_before operand_before self.old.row.items (operand_before operand rest)) }
    {
        self.row.push(operand)?;
        self.depth = deeper(self.depth, depth);
        Ok(())
    }
}

/// Suffixes of a primary expression (6.5.2), and how deep the deepest nests.
#[derive(Drop)]
pub struct MeasuredSuffixes<A: Allocator> {
    pub row: Vec<Suffix<A>, A>,
    pub depth: u16,
    pub ghost measured: { NestBefore suffixes_nesting (row_before suffix_before row.items) depth },
}

impl<A: Allocator> MeasuredSuffixes<A> {
    /// No elements.
    pub(crate) fn none(alloc: A) -> MeasuredSuffixes<A>
        ensures { (rest : _) → row_before suffix_before result.row.items rest ≡ rest }
    {
        MeasuredSuffixes {
            row: Vec::new(alloc),
            depth: 0,
        }
    }

    /// A suffix, which nests so deep, after the others.
    pub(crate) fn push(&mut self, suffix: Suffix<A>, depth: u16) -> Result<(), OutOfMemory>
        requires { NestBefore suffixes_nesting (suffix_before suffix) depth }
        ensures { OnOk result ((rest : _) → row_before suffix_before self.new.row.items rest
            ≡ row_before suffix_before self.old.row.items (suffix_before suffix rest)) }
    {
        self.row.push(suffix)?;
        self.depth = deeper(self.depth, depth);
        Ok(())
    }
}

/// Specifiers (6.7), and how deep the deepest nests.
#[derive(Drop)]
pub struct MeasuredSpecifiers<A: Allocator> {
    pub row: Vec<Specifier<A>, A>,
    pub depth: u16,
    pub ghost measured: { NestBefore specifiers_nesting (row_before specifier_before row.items) depth },
}

impl<A: Allocator> MeasuredSpecifiers<A> {
    /// No elements.
    pub(crate) fn none(alloc: A) -> MeasuredSpecifiers<A>
        ensures { (rest : _) → row_before specifier_before result.row.items rest ≡ rest }
    {
        MeasuredSpecifiers {
            row: Vec::new(alloc),
            depth: 0,
        }
    }

    /// A specifier, which nests so deep, after the others.
    pub(crate) fn push(&mut self, specifier: Specifier<A>, depth: u16) -> Result<(), OutOfMemory>
        requires { NestBefore specifiers_nesting (specifier_before specifier) depth }
        ensures { OnOk result ((rest : _) → row_before specifier_before self.new.row.items rest
            ≡ row_before specifier_before self.old.row.items (specifier_before specifier rest)) }
    {
        self.row.push(specifier)?;
        self.depth = deeper(self.depth, depth);
        Ok(())
    }
}

/// Member declarations of a struct (6.7.2.1), and how deep the deepest nests.
#[derive(Drop)]
pub struct MeasuredMembers<A: Allocator> {
    pub row: Vec<Member<A>, A>,
    pub depth: u16,
    pub ghost measured: { NestBefore members_nesting (row_before member_before row.items) depth },
}

impl<A: Allocator> MeasuredMembers<A> {
    /// No elements.
    pub(crate) fn none(alloc: A) -> MeasuredMembers<A>
        ensures { (rest : _) → row_before member_before result.row.items rest ≡ rest }
    {
        MeasuredMembers {
            row: Vec::new(alloc),
            depth: 0,
        }
    }

    /// A member declaration, which nests so deep, after the others.
    pub(crate) fn push(&mut self, member: Member<A>, depth: u16) -> Result<(), OutOfMemory>
        requires { NestBefore members_nesting (member_before member) depth }
        ensures { OnOk result ((rest : _) → row_before member_before self.new.row.items rest
            ≡ row_before member_before self.old.row.items (member_before member rest)) }
    {
        self.row.push(member)?;
        self.depth = deeper(self.depth, depth);
        Ok(())
    }
}

/// Further declarators, each after a comma (6.7), and how deep the deepest nests.
#[derive(Drop)]
pub struct MeasuredDeclarators<A: Allocator> {
    pub row: Vec<NextDeclarator<A>, A>,
    pub depth: u16,
    pub ghost measured: { NestBefore declarators_nesting (row_before declarator_before row.items) depth },
}

impl<A: Allocator> MeasuredDeclarators<A> {
    /// No elements.
    pub(crate) fn none(alloc: A) -> MeasuredDeclarators<A>
        ensures { (rest : _) → row_before declarator_before result.row.items rest ≡ rest }
    {
        MeasuredDeclarators {
            row: Vec::new(alloc),
            depth: 0,
        }
    }

    /// A comma and a declarator, which nests so deep, after the others.
    pub(crate) fn push(
        &mut self,
        declarator: NextDeclarator<A>,
        depth: u16,
    ) -> Result<(), OutOfMemory>
        requires { NestBefore declarators_nesting (declarator_before declarator) depth }
        ensures { OnOk result ((rest : _) → row_before declarator_before self.new.row.items rest
            ≡ row_before declarator_before self.old.row.items (declarator_before declarator rest)) }
    {
        self.row.push(declarator)?;
        self.depth = deeper(self.depth, depth);
        Ok(())
    }
}

/// Enumerators, each with the comma after it (6.7.2.2), and how deep the deepest nests.
#[derive(Drop)]
pub struct MeasuredEarlier<A: Allocator> {
    pub row: Vec<EarlierEnumerator<A>, A>,
    pub depth: u16,
    pub ghost measured: { NestBefore enumerators_nesting (row_before earlier_enumerator_before row.items) depth },
}

impl<A: Allocator> MeasuredEarlier<A> {
    /// No elements.
    pub(crate) fn none(alloc: A) -> MeasuredEarlier<A>
        ensures { (rest : _) → row_before earlier_enumerator_before result.row.items rest ≡ rest }
    {
        MeasuredEarlier {
            row: Vec::new(alloc),
            depth: 0,
        }
    }

    /// An enumerator and a comma, which nests so deep, after the others.
    pub(crate) fn push(
        &mut self,
        enumerator: EarlierEnumerator<A>,
        depth: u16,
    ) -> Result<(), OutOfMemory>
        requires { NestBefore enumerators_nesting (earlier_enumerator_before enumerator) depth }
        ensures { OnOk result ((rest : _) → row_before earlier_enumerator_before self.new.row.items rest
            ≡ row_before earlier_enumerator_before self.old.row.items (earlier_enumerator_before enumerator rest)) }
    {
        self.row.push(enumerator)?;
        self.depth = deeper(self.depth, depth);
        Ok(())
    }
}

/// Suffixes of a declarator (6.7.5.2, 6.7.5.3), and how deep the deepest nests.
#[derive(Drop)]
pub struct MeasuredDims<A: Allocator> {
    pub row: Vec<Dim<A>, A>,
    pub depth: u16,
    pub ghost measured: { NestBefore dims_nesting (row_before dim_before row.items) depth },
}

impl<A: Allocator> MeasuredDims<A> {
    /// No elements.
    pub(crate) fn none(alloc: A) -> MeasuredDims<A>
        ensures { (rest : _) → row_before dim_before result.row.items rest ≡ rest }
    {
        MeasuredDims {
            row: Vec::new(alloc),
            depth: 0,
        }
    }

    /// A suffix of a declarator, which nests so deep, after the others.
    pub(crate) fn push(&mut self, dim: Dim<A>, depth: u16) -> Result<(), OutOfMemory>
        requires { NestBefore dims_nesting (dim_before dim) depth }
        ensures { OnOk result ((rest : _) → row_before dim_before self.new.row.items rest
            ≡ row_before dim_before self.old.row.items (dim_before dim rest)) }
    {
        self.row.push(dim)?;
        self.depth = deeper(self.depth, depth);
        Ok(())
    }
}

/// Further parameters, each after a comma (6.7.5.3), and how deep the deepest nests.
#[derive(Drop)]
pub struct MeasuredMoreParams<A: Allocator> {
    pub row: Vec<NextParameter<A>, A>,
    pub depth: u16,
    pub ghost measured: { NestBefore more_params_nesting (row_before parameter_before row.items) depth },
}

impl<A: Allocator> MeasuredMoreParams<A> {
    /// No elements.
    pub(crate) fn none(alloc: A) -> MeasuredMoreParams<A>
        ensures { (rest : _) → row_before parameter_before result.row.items rest ≡ rest }
    {
        MeasuredMoreParams {
            row: Vec::new(alloc),
            depth: 0,
        }
    }

    /// A comma and a parameter, which nests so deep, after the others.
    pub(crate) fn push(
        &mut self,
        parameter: NextParameter<A>,
        depth: u16,
    ) -> Result<(), OutOfMemory>
        requires { NestBefore more_params_nesting (parameter_before parameter) depth }
        ensures { OnOk result ((rest : _) → row_before parameter_before self.new.row.items rest
            ≡ row_before parameter_before self.old.row.items (parameter_before parameter rest)) }
    {
        self.row.push(parameter)?;
        self.depth = deeper(self.depth, depth);
        Ok(())
    }
}
