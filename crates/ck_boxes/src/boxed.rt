//! The builders of the readers' trees.
ghost use Rattle.std.specs.Prelude.{◌≡◌};

use crate::depths::{deeper, one_more};
use crate::questions::{abstract_depth, ellipsis_of, form_of, only_word_in, shows};
use crate::rows::{
    MeasuredDeclarators, MeasuredDims, MeasuredEarlier, MeasuredMembers, MeasuredMoreParams,
    MeasuredOperands, MeasuredSpecifiers, MeasuredSuffixes,
};
use crate::trees::{
    MeasuredDeclarator, MeasuredEnumerator, MeasuredEnumerators, MeasuredExpr, MeasuredParams,
    MeasuredTypeName,
};
use ck_base::{OutOfMemory, Token};
use ck_readers::{Building, Form};
use ck_syntax::{
    Declarator, Dim, EarlierEnumerator, EnumSpecifier, Enumerator, Expr, Member, NextDeclarator,
    NextParameter, Operand, Parameters, Specifier, StructSpecifier, Suffix, TypeName,
};
use std::alloc::Allocator;

/// Builds the trees of ck_syntax, with boxes and vectors of this allocator, each tree with how deep it nests beside it.
#[derive(Clone, Copy)]
pub struct Boxed<A: Allocator + Copy> {
    pub alloc: A,
}

impl<A: Allocator + Copy> Building for Boxed<A> {
    ghost use Rattle.ck_syntax.specs.ExpressionViews.{expr_tree, operand_before, suffix_before, specifier_before};
    ghost use Rattle.ck_syntax.specs.ExpressionViews.{specifier_trees, member_before, declarator_tree};
    ghost use Rattle.ck_syntax.specs.ExpressionViews.{declarator_before, dim_before, parameters_tree};
    ghost use Rattle.ck_syntax.specs.ExpressionViews.{parameter_before, last_enumerator, enumerator_before};
    ghost use Rattle.ck_syntax.specs.ExpressionViews.{earlier_enumerator_before, enumerator_trees};
    ghost use Rattle.ck_syntax.specs.Rows.{row_before};

    type Tokens = Vec<Token, A>;

    type Expr = MeasuredExpr<A>;

    type Operands = MeasuredOperands<A>;

    type Suffixes = MeasuredSuffixes<A>;

    type TypeName = MeasuredTypeName<A>;

    type Specifiers = MeasuredSpecifiers<A>;

    type Members = MeasuredMembers<A>;

    type Declarators = MeasuredDeclarators<A>;

    type Enumerator = MeasuredEnumerator<A>;

    type Earlier = MeasuredEarlier<A>;

    type Enumerators = MeasuredEnumerators<A>;

    type Declarator = MeasuredDeclarator<A>;

    type Dims = MeasuredDims<A>;

    type Params = MeasuredParams<A>;

    type MoreParams = MeasuredMoreParams<A>;

    ghost tokens = { λ row. row.items };

    ghost expr = { λ e. expr_tree e.tree };

    ghost operands = { λ os. row_before operand_before os.row.items };

    ghost suffixes = { λ ss. row_before suffix_before ss.row.items };

    ghost type_name = { λ t. (
      t.tree.opening,
      specifier_trees t.tree.specifiers.items,
      declarator_tree t.tree.declarator,
      t.tree.closing,
    ) };

    ghost specifiers = { λ ss. row_before specifier_before ss.row.items };

    ghost members = { λ ms. row_before member_before ms.row.items };

    ghost declarators = { λ ds. row_before declarator_before ds.row.items };

    ghost last_of = { λ e. last_enumerator e.tree };

    ghost before_others = { λ e. enumerator_before e.tree };

    ghost earlier = { λ es. row_before earlier_enumerator_before es.row.items };

    ghost enumerators = { λ es. enumerator_trees es.earlier.items es.last es.comma };

    ghost declarator = { λ d. declarator_tree d.tree };

    ghost dims = { λ ds. row_before dim_before ds.row.items };

    ghost params = { λ ps. parameters_tree ps.tree };

    ghost more_params = { λ ps. row_before parameter_before ps.row.items };

    fn no_tokens(&self) -> Vec<Token, A> {
        Vec::new(self.alloc)
    }

    fn push_token(&self, row: &mut Vec<Token, A>, token: Token) -> Result<(), OutOfMemory> {
        row.push(token)?;
        Ok(())
    }

    fn name(&self, token: Token) -> MeasuredExpr<A> {
        MeasuredExpr {
            tree: Expr::name(token),
            depth: 1,
        }
    }

    fn constant(&self, token: Token) -> MeasuredExpr<A> {
        MeasuredExpr {
            tree: Expr::constant(token),
            depth: 1,
        }
    }

    fn strings(&self, first: Token, others: Vec<Token, A>) -> MeasuredExpr<A> {
        MeasuredExpr {
            tree: Expr::strings(first, others),
            depth: 1,
        }
    }

    fn paren(
        &self,
        opening: Token,
        inner: MeasuredExpr<A>,
        closing: Token,
    ) -> Result<MeasuredExpr<A>, OutOfMemory> {
        let depth = one_more(inner.depth);
        let inside = inner.tree.boxed(self.alloc)?;
        let tree = Expr::paren(opening, inside, closing);
        Ok(MeasuredExpr { tree, depth })
    }

    fn postfix(
        &self,
        primary: MeasuredExpr<A>,
        row: MeasuredSuffixes<A>,
    ) -> Result<MeasuredExpr<A>, OutOfMemory> {
        let depth = one_more(deeper(primary.depth, row.depth));
        let before = primary.tree.boxed(self.alloc)?;
        let tree = Expr::postfix(before, row.row);
        Ok(MeasuredExpr { tree, depth })
    }

    fn unary(
        &self,
        operator: Token,
        operand: MeasuredExpr<A>,
    ) -> Result<MeasuredExpr<A>, OutOfMemory> {
        let depth = one_more(operand.depth);
        let right = operand.tree.boxed(self.alloc)?;
        let tree = Expr::unary(operator, right);
        Ok(MeasuredExpr { tree, depth })
    }

    fn sizeof_type(
        &self,
        keyword: Token,
        of: MeasuredTypeName<A>,
    ) -> Result<MeasuredExpr<A>, OutOfMemory> {
        let depth = one_more(of.depth);
        let named = of.tree.boxed(self.alloc)?;
        let tree = Expr::sizeof_type(keyword, named);
        Ok(MeasuredExpr { tree, depth })
    }

    fn cast(
        &self,
        to: MeasuredTypeName<A>,
        operand: MeasuredExpr<A>,
    ) -> Result<MeasuredExpr<A>, OutOfMemory> {
        let depth = one_more(deeper(to.depth, operand.depth));
        let named = to.tree.boxed(self.alloc)?;
        let right = operand.tree.boxed(self.alloc)?;
        let tree = Expr::cast(named, right);
        Ok(MeasuredExpr { tree, depth })
    }

    fn chain(
        &self,
        first: MeasuredExpr<A>,
        row: MeasuredOperands<A>,
    ) -> Result<MeasuredExpr<A>, OutOfMemory> {
        let depth = one_more(deeper(first.depth, row.depth));
        let left = first.tree.boxed(self.alloc)?;
        let tree = Expr::chain(left, row.row);
        Ok(MeasuredExpr { tree, depth })
    }

    fn conditional(
        &self,
        test: MeasuredExpr<A>,
        question: Token,
        second: MeasuredExpr<A>,
        colon: Token,
        third: MeasuredExpr<A>,
    ) -> Result<MeasuredExpr<A>, OutOfMemory> {
        let depth = one_more(deeper(test.depth, deeper(second.depth, third.depth)));
        let tested = test.tree.boxed(self.alloc)?;
        let then = second.tree.boxed(self.alloc)?;
        let otherwise = third.tree.boxed(self.alloc)?;
        let tree = Expr::conditional(tested, question, then, colon, otherwise);
        Ok(MeasuredExpr { tree, depth })
    }

    fn assignment(
        &self,
        target: MeasuredExpr<A>,
        operator: Token,
        value: MeasuredExpr<A>,
    ) -> Result<MeasuredExpr<A>, OutOfMemory> {
        let depth = one_more(deeper(target.depth, value.depth));
        let left = target.tree.boxed(self.alloc)?;
        let right = value.tree.boxed(self.alloc)?;
        let tree = Expr::assignment(left, operator, right);
        Ok(MeasuredExpr { tree, depth })
    }

    fn nests_within(&self, tree: &MeasuredExpr<A>, depth: u8) -> bool {
        tree.depth <= depth as u16
    }

    fn form(&self, tree: &MeasuredExpr<A>) -> Form {
        form_of(&tree.tree)
    }

    fn no_operands(&self) -> MeasuredOperands<A> {
        MeasuredOperands::none(self.alloc)
    }

    fn push_operand(
        &self,
        row: &mut MeasuredOperands<A>,
        operator: Token,
        operand: MeasuredExpr<A>,
    ) -> Result<(), OutOfMemory> {
        let MeasuredExpr { tree, depth } = operand;
        row.push(Operand::new(operator, tree), depth)
    }

    fn has_operand(&self, row: &MeasuredOperands<A>) -> bool {
        !row.row.as_slice().is_empty()
    }

    fn no_suffixes(&self) -> MeasuredSuffixes<A> {
        MeasuredSuffixes::none(self.alloc)
    }

    fn push_index(
        &self,
        row: &mut MeasuredSuffixes<A>,
        opening: Token,
        index: MeasuredExpr<A>,
        closing: Token,
    ) -> Result<(), OutOfMemory> {
        let MeasuredExpr { tree, depth } = index;
        let inside = tree.boxed(self.alloc)?;
        row.push(Suffix::index(opening, inside, closing), depth)
    }

    fn push_call_empty(
        &self,
        row: &mut MeasuredSuffixes<A>,
        opening: Token,
        closing: Token,
    ) -> Result<(), OutOfMemory> {
        row.push(Suffix::call_empty(opening, closing), 0)
    }

    fn push_call(
        &self,
        row: &mut MeasuredSuffixes<A>,
        opening: Token,
        first: MeasuredExpr<A>,
        others: MeasuredOperands<A>,
        closing: Token,
    ) -> Result<(), OutOfMemory> {
        let depth = deeper(first.depth, others.depth);
        let argument = first.tree.boxed(self.alloc)?;
        row.push(Suffix::call(opening, argument, others.row, closing), depth)
    }

    fn push_member_access(
        &self,
        row: &mut MeasuredSuffixes<A>,
        operator: Token,
        member: Token,
    ) -> Result<(), OutOfMemory> {
        row.push(Suffix::member_access(operator, member), 0)
    }

    fn push_post_increment(
        &self,
        row: &mut MeasuredSuffixes<A>,
        operator: Token,
    ) -> Result<(), OutOfMemory> {
        row.push(Suffix::post_increment(operator), 0)
    }

    fn has_suffix(&self, row: &MeasuredSuffixes<A>) -> bool {
        !row.row.as_slice().is_empty()
    }

    fn parenthesised(
        &self,
        opening: Token,
        row: MeasuredSpecifiers<A>,
        nameless: MeasuredDeclarator<A>,
        closing: Token,
    ) -> MeasuredTypeName<A> {
        let depth = deeper(row.depth, nameless.depth);
        let tree = TypeName {
            opening,
            specifiers: row.row,
            declarator: nameless.tree,
            closing,
        };
        MeasuredTypeName { tree, depth }
    }

    fn no_specifiers(&self) -> MeasuredSpecifiers<A> {
        MeasuredSpecifiers::none(self.alloc)
    }

    fn push_word(&self, row: &mut MeasuredSpecifiers<A>, token: Token) -> Result<(), OutOfMemory> {
        row.push(Specifier::word(token), 0)
    }

    fn push_typedef_name(
        &self,
        row: &mut MeasuredSpecifiers<A>,
        token: Token,
    ) -> Result<(), OutOfMemory> {
        row.push(Specifier::typedef_name(token), 0)
    }

    fn push_tagged(
        &self,
        row: &mut MeasuredSpecifiers<A>,
        keyword: Token,
        tag: Token,
    ) -> Result<(), OutOfMemory> {
        row.push(Specifier::tagged(keyword, tag), 0)
    }

    fn push_struct(
        &self,
        row: &mut MeasuredSpecifiers<A>,
        keyword: Token,
        tag: Option<Token>,
        opening: Token,
        body: MeasuredMembers<A>,
        closing: Token,
    ) -> Result<(), OutOfMemory> {
        let depth = one_more(body.depth);
        let whole = StructSpecifier::new(keyword, tag, opening, body.row, closing);
        let inside = whole.boxed(self.alloc)?;
        row.push(Specifier::structure(inside), depth)
    }

    fn push_enum(
        &self,
        row: &mut MeasuredSpecifiers<A>,
        keyword: Token,
        tag: Option<Token>,
        opening: Token,
        body: MeasuredEnumerators<A>,
        closing: Token,
    ) -> Result<(), OutOfMemory> {
        let MeasuredEnumerators {
            earlier,
            last,
            comma,
            depth,
        } = body;
        let whole = EnumSpecifier::new(keyword, tag, opening, earlier, last, comma, closing);
        let inside = whole.boxed(self.alloc)?;
        row.push(Specifier::enumeration(inside), one_more(depth))
    }

    fn only_word(&self, row: &MeasuredSpecifiers<A>) -> Option<Token> {
        only_word_in(row.row.as_slice())
    }

    fn no_members(&self) -> MeasuredMembers<A> {
        MeasuredMembers::none(self.alloc)
    }

    fn push_member(
        &self,
        row: &mut MeasuredMembers<A>,
        of: MeasuredSpecifiers<A>,
        first: MeasuredDeclarator<A>,
        others: MeasuredDeclarators<A>,
        semicolon: Token,
    ) -> Result<(), OutOfMemory> {
        let depth = deeper(deeper(of.depth, first.depth), others.depth);
        let member = Member::new(of.row, first.tree, others.row, semicolon);
        row.push(member, depth)
    }

    fn has_member(&self, row: &MeasuredMembers<A>) -> bool {
        !row.row.as_slice().is_empty()
    }

    fn no_declarators(&self) -> MeasuredDeclarators<A> {
        MeasuredDeclarators::none(self.alloc)
    }

    fn push_declarator(
        &self,
        row: &mut MeasuredDeclarators<A>,
        comma: Token,
        next: MeasuredDeclarator<A>,
    ) -> Result<(), OutOfMemory> {
        let MeasuredDeclarator { tree, depth } = next;
        row.push(NextDeclarator::new(comma, tree), depth)
    }

    fn enumerator(&self, name: Token) -> MeasuredEnumerator<A> {
        MeasuredEnumerator {
            tree: Enumerator::plain(name),
            depth: 0,
        }
    }

    fn valued_enumerator(
        &self,
        name: Token,
        equals: Token,
        value: MeasuredExpr<A>,
    ) -> Result<MeasuredEnumerator<A>, OutOfMemory> {
        let MeasuredExpr { tree, depth } = value;
        let inside = tree.boxed(self.alloc)?;
        Ok(MeasuredEnumerator {
            tree: Enumerator::valued(name, equals, inside),
            depth,
        })
    }

    fn no_enumerators(&self) -> MeasuredEarlier<A> {
        MeasuredEarlier::none(self.alloc)
    }

    fn push_enumerator(
        &self,
        row: &mut MeasuredEarlier<A>,
        next: MeasuredEnumerator<A>,
        comma: Token,
    ) -> Result<(), OutOfMemory> {
        let MeasuredEnumerator { tree, depth } = next;
        row.push(EarlierEnumerator::new(tree, comma), depth)
    }

    fn all_enumerators(
        &self,
        row: MeasuredEarlier<A>,
        final_one: MeasuredEnumerator<A>,
        comma: Option<Token>,
    ) -> MeasuredEnumerators<A> {
        let depth = deeper(row.depth, final_one.depth);
        MeasuredEnumerators {
            earlier: row.row,
            last: final_one.tree,
            comma,
            depth,
        }
    }

    fn nameless(&self, stars: Vec<Token, A>, row: MeasuredDims<A>) -> MeasuredDeclarator<A> {
        let depth = abstract_depth(stars.as_slice(), row.row.as_slice(), row.depth);
        let tree = Declarator::nameless(stars, row.row);
        MeasuredDeclarator { tree, depth }
    }

    fn named(
        &self,
        stars: Vec<Token, A>,
        name: Token,
        row: MeasuredDims<A>,
    ) -> MeasuredDeclarator<A> {
        let depth = one_more(row.depth);
        let tree = Declarator::named(stars, name, row.row);
        MeasuredDeclarator { tree, depth }
    }

    fn nested(
        &self,
        stars: Vec<Token, A>,
        opening: Token,
        inner: MeasuredDeclarator<A>,
        closing: Token,
        row: MeasuredDims<A>,
    ) -> Result<MeasuredDeclarator<A>, OutOfMemory> {
        let depth = one_more(deeper(inner.depth, row.depth));
        let inside = inner.tree.boxed(self.alloc)?;
        let tree = Declarator::nested(stars, opening, inside, closing, row.row);
        Ok(MeasuredDeclarator { tree, depth })
    }

    fn is_written(&self, tree: &MeasuredDeclarator<A>) -> bool {
        shows(&tree.tree)
    }

    fn no_dims(&self) -> MeasuredDims<A> {
        MeasuredDims::none(self.alloc)
    }

    fn push_open(
        &self,
        row: &mut MeasuredDims<A>,
        opening: Token,
        closing: Token,
    ) -> Result<(), OutOfMemory> {
        row.push(Dim::unspecified(opening, closing), 0)
    }

    fn push_sized(
        &self,
        row: &mut MeasuredDims<A>,
        opening: Token,
        size: MeasuredExpr<A>,
        closing: Token,
    ) -> Result<(), OutOfMemory> {
        let MeasuredExpr { tree, depth } = size;
        let inside = tree.boxed(self.alloc)?;
        row.push(Dim::sized(opening, inside, closing), depth)
    }

    fn push_function(
        &self,
        row: &mut MeasuredDims<A>,
        opening: Token,
        list: MeasuredParams<A>,
        closing: Token,
    ) -> Result<(), OutOfMemory> {
        let MeasuredParams { tree, depth } = list;
        let inside = tree.boxed(self.alloc)?;
        row.push(Dim::function(opening, inside, closing), depth)
    }

    fn no_params(&self) -> MeasuredParams<A> {
        MeasuredParams {
            tree: Parameters::empty(),
            depth: 0,
        }
    }

    fn void_params(&self, token: Token) -> MeasuredParams<A> {
        MeasuredParams {
            tree: Parameters::void(token),
            depth: 0,
        }
    }

    fn parameters(
        &self,
        of: MeasuredSpecifiers<A>,
        first: MeasuredDeclarator<A>,
        others: MeasuredMoreParams<A>,
        ellipsis: Option<(Token, Token)>,
    ) -> MeasuredParams<A> {
        let depth = deeper(deeper(of.depth, first.depth), others.depth);
        let end = ellipsis_of(ellipsis);
        let tree = Parameters::listed(of.row, first.tree, others.row, end);
        MeasuredParams { tree, depth }
    }

    fn no_more_params(&self) -> MeasuredMoreParams<A> {
        MeasuredMoreParams::none(self.alloc)
    }

    fn push_param(
        &self,
        row: &mut MeasuredMoreParams<A>,
        comma: Token,
        of: MeasuredSpecifiers<A>,
        next: MeasuredDeclarator<A>,
    ) -> Result<(), OutOfMemory> {
        let depth = deeper(of.depth, next.depth);
        row.push(NextParameter::new(comma, of.row, next.tree), depth)
    }

    fn has_param(&self, row: &MeasuredMoreParams<A>) -> bool {
        !row.row.as_slice().is_empty()
    }
}
