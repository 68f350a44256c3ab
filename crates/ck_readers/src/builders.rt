//! The trees as the readers need them: builders, rows that grow at their end, and a few questions.
ghost use Rattle.std.specs.Prelude.{◌≡◌, ◌++◌, ◌∷◌, [], not, ◌&&◌, nat_le, Option, List, IfOk, OnOk};
ghost use Rattle.ck_base.specs.declared.tokens.Token.{Token};
ghost use Rattle.ck_grammar.specs.Fitting as fitting;
ghost use Rattle.ck_grammar.specs.Nesting.{nesting};
ghost use Rattle.ck_grammar.specs.ReadingExpressions as reading;
ghost use Rattle.ck_grammar.specs.Trees as plain;
ghost use Rattle.ck_readers.specs.Forms.{form as form_of, only_word_of};
ghost use Rattle.ck_readers.specs.Rows.{ellipsis_end};

use crate::forms::Form;
use ck_base::{OutOfMemory, Token};

/// Trees of the C subset (C99 6.5 and 6.7), wherever they are kept.
///
/// Each tree is seen as the plain tree that it stands for, and each row as what it is before the elements that follow:
/// a row that is done has none after it. There is one builder for each production; it takes its parts, and fails only
/// for want of memory. A row that a failed push leaves may have lost the element.
pub trait Building {
    /// Tokens in order.
    type Tokens: Drop;
    /// An expression, with its nesting beside it.
    type Expr: Drop;
    /// Operators, each with its right operand; in a call, commas with arguments.
    type Operands: Drop;
    /// Suffixes of a primary expression.
    type Suffixes: Drop;
    /// `(` type name `)`
    type TypeName: Drop;
    /// Specifiers.
    type Specifiers: Drop;
    /// Member declarations of a struct.
    type Members: Drop;
    /// Further declarators, each after a comma.
    type Declarators: Drop;
    /// An enumerator without the comma after it.
    type Enumerator: Drop;
    /// Enumerators, each with the comma after it.
    type Earlier: Drop;
    /// The enumerators of an enum.
    type Enumerators: Drop;
    /// A declarator.
    type Declarator: Drop;
    /// Suffixes of a declarator.
    type Dims: Drop;
    /// Parameters.
    type Params: Drop;
    /// Further parameters, each after a comma.
    type MoreParams: Drop;

    ghost tokens: { Self.Tokens → List Token };

    ghost expr: { Self.Expr → plain.Expr };

    ghost operands: { Self.Operands → plain.Operands → plain.Operands };

    ghost suffixes: { Self.Suffixes → plain.Suffixes → plain.Suffixes };

    /// `(`, specifiers, abstract declarator, `)`.
    ghost type_name: { Self.TypeName → Token × plain.Specifiers × plain.Declarator × Token };

    ghost specifiers: { Self.Specifiers → plain.Specifiers → plain.Specifiers };

    ghost members: { Self.Members → plain.Members → plain.Members };

    ghost declarators: { Self.Declarators → plain.Declarators → plain.Declarators };

    /// The last enumerator, maybe with a comma after it.
    ghost last_of: { Self.Enumerator → Option Token → plain.Enumerators };

    /// An enumerator with a comma after it, before others.
    ghost before_others: { Self.Enumerator → Token → plain.Enumerators → plain.Enumerators };

    ghost earlier: { Self.Earlier → plain.Enumerators → plain.Enumerators };

    ghost enumerators: { Self.Enumerators → plain.Enumerators };

    ghost declarator: { Self.Declarator → plain.Declarator };

    ghost dims: { Self.Dims → plain.Dims → plain.Dims };

    ghost params: { Self.Params → plain.Params };

    ghost more_params: { Self.MoreParams → plain.MoreParams → plain.MoreParams };

    /// No tokens.
    fn no_tokens(&self) -> Self::Tokens
        ensures { tokens result ≡ [] };

    /// A token after the others.
    fn push_token(&self, row: &mut Self::Tokens, token: Token) -> Result<(), OutOfMemory>
        ensures { OnOk result (tokens row.new ≡ tokens row.old ++ token ∷ []) };

    /// A name (6.5.1).
    fn name(&self, token: Token) -> Self::Expr
        ensures { expr result ≡ plain.Name token };

    /// A number or a character constant (6.5.1).
    fn constant(&self, token: Token) -> Self::Expr
        ensures { expr result ≡ plain.Constant token };

    /// String literals, neighbours joined (6.5.1, 6.4.5).
    fn strings(&self, first: Token, others: Self::Tokens) -> Self::Expr
        ensures { expr result ≡ plain.Strings first (tokens others) };

    /// `(` expression `)` (6.5.1)
    fn paren(
        &self,
        opening: Token,
        inner: Self::Expr,
        closing: Token,
    ) -> Result<Self::Expr, OutOfMemory>
        ensures { IfOk result (λ tree. expr tree ≡ plain.Paren opening (expr inner) closing) };

    /// A primary expression and its suffixes (6.5.2).
    fn postfix(&self, primary: Self::Expr, row: Self::Suffixes) -> Result<Self::Expr, OutOfMemory>
        ensures { IfOk result (λ tree. expr tree ≡ plain.Postfix (expr primary) (suffixes row plain.NoSuffixes)) };

    /// A prefix operator or `sizeof`, and an operand (6.5.3).
    fn unary(&self, operator: Token, operand: Self::Expr) -> Result<Self::Expr, OutOfMemory>
        ensures { IfOk result (λ tree. expr tree ≡ plain.Unary operator (expr operand)) };

    /// `sizeof` `(` type name `)` (6.5.3.4)
    fn sizeof_type(&self, keyword: Token, of: Self::TypeName) -> Result<Self::Expr, OutOfMemory>
        ensures { IfOk result (λ tree. expr tree ≡ plain.SizeofType keyword (type_name of).0 (type_name of).1
            (type_name of).2 (type_name of).3) };

    /// `(` type name `)` operand (6.5.4)
    fn cast(&self, to: Self::TypeName, operand: Self::Expr) -> Result<Self::Expr, OutOfMemory>
        ensures { IfOk result (λ tree. expr tree ≡ plain.Cast (type_name to).0 (type_name to).1 (type_name to).2
            (type_name to).3 (expr operand)) };

    /// Operands of one left-associative level, or of the comma (6.5.5 to 6.5.14, 6.5.17).
    fn chain(&self, first: Self::Expr, row: Self::Operands) -> Result<Self::Expr, OutOfMemory>
        ensures { IfOk result (λ tree. expr tree ≡ plain.Chain (expr first) (operands row plain.NoOperands)) };

    /// test `?` expression `:` expression (6.5.15)
    fn conditional(
        &self,
        test: Self::Expr,
        question: Token,
        second: Self::Expr,
        colon: Token,
        third: Self::Expr,
    ) -> Result<Self::Expr, OutOfMemory>
        ensures { IfOk result (λ tree. expr tree ≡ plain.Conditional (expr test) question (expr second) colon
            (expr third)) };

    /// Left side, assignment operator, right side (6.5.16).
    fn assignment(
        &self,
        target: Self::Expr,
        operator: Token,
        value: Self::Expr,
    ) -> Result<Self::Expr, OutOfMemory>
        ensures { IfOk result (λ tree. expr tree ≡ plain.Assignment (expr target) operator (expr value)) };

    /// Whether an expression nests at most so deep.
    fn nests_within(&self, tree: &Self::Expr, depth: u8) -> bool
        ensures { result ≡ nat_le (nesting (expr tree.now)) depth };

    /// The outermost production of an expression.
    fn form(&self, tree: &Self::Expr) -> Form
        ensures { result ≡ form_of (expr tree.now) };

    /// No operators.
    fn no_operands(&self) -> Self::Operands
        ensures { (rest : plain.Operands) → operands result rest ≡ rest };

    /// An operator and its right operand after the others.
    fn push_operand(
        &self,
        row: &mut Self::Operands,
        operator: Token,
        operand: Self::Expr,
    ) -> Result<(), OutOfMemory>
        ensures { OnOk result ((rest : plain.Operands) → operands row.new rest
            ≡ operands row.old (plain.Operand operator (expr operand) rest)) };

    /// Whether there is an operator.
    fn has_operand(&self, row: &Self::Operands) -> bool
        ensures { result ≡ reading.has_operand (operands row.now plain.NoOperands) };

    /// No suffixes.
    fn no_suffixes(&self) -> Self::Suffixes
        ensures { (rest : plain.Suffixes) → suffixes result rest ≡ rest };

    /// `[` expression `]` after the others (6.5.2.1).
    fn push_index(
        &self,
        row: &mut Self::Suffixes,
        opening: Token,
        index: Self::Expr,
        closing: Token,
    ) -> Result<(), OutOfMemory>
        ensures { OnOk result ((rest : plain.Suffixes) → suffixes row.new rest
            ≡ suffixes row.old (plain.Index opening (expr index) closing rest)) };

    /// `(` `)` after the others (6.5.2.2).
    fn push_call_empty(
        &self,
        row: &mut Self::Suffixes,
        opening: Token,
        closing: Token,
    ) -> Result<(), OutOfMemory>
        ensures { OnOk result ((rest : plain.Suffixes) → suffixes row.new rest
            ≡ suffixes row.old (plain.CallEmpty opening closing rest)) };

    /// `(` argument, and with commas before them the others `)` after the others (6.5.2.2).
    fn push_call(
        &self,
        row: &mut Self::Suffixes,
        opening: Token,
        first: Self::Expr,
        others: Self::Operands,
        closing: Token,
    ) -> Result<(), OutOfMemory>
        ensures { OnOk result ((rest : plain.Suffixes) → suffixes row.new rest
            ≡ suffixes row.old (plain.Call opening (expr first) (operands others plain.NoOperands) closing rest)) };

    /// `.` or `->` and a member's name after the others (6.5.2.3).
    fn push_member_access(
        &self,
        row: &mut Self::Suffixes,
        operator: Token,
        member: Token,
    ) -> Result<(), OutOfMemory>
        ensures { OnOk result ((rest : plain.Suffixes) → suffixes row.new rest
            ≡ suffixes row.old (plain.MemberAccess operator member rest)) };

    /// `++` or `--` after the others (6.5.2.4).
    fn push_post_increment(
        &self,
        row: &mut Self::Suffixes,
        operator: Token,
    ) -> Result<(), OutOfMemory>
        ensures { OnOk result ((rest : plain.Suffixes) → suffixes row.new rest
            ≡ suffixes row.old (plain.PostIncrement operator rest)) };

    /// Whether there is a suffix.
    fn has_suffix(&self, row: &Self::Suffixes) -> bool
        ensures { result ≡ fitting.has_suffix (suffixes row.now plain.NoSuffixes) };

    /// `(` specifiers, an abstract declarator `)`, not yet as a part of an expression (6.7.6).
    fn parenthesised(
        &self,
        opening: Token,
        row: Self::Specifiers,
        nameless: Self::Declarator,
        closing: Token,
    ) -> Self::TypeName
        ensures { type_name result ≡ (opening, specifiers row plain.NoSpecifiers, declarator nameless, closing) };

    /// No specifiers.
    fn no_specifiers(&self) -> Self::Specifiers
        ensures { (rest : plain.Specifiers) → specifiers result rest ≡ rest };

    /// A storage class, a qualifier, `inline` or a type word after the others (6.7.1 to 6.7.4).
    fn push_word(&self, row: &mut Self::Specifiers, token: Token) -> Result<(), OutOfMemory>
        ensures { OnOk result ((rest : plain.Specifiers) → specifiers row.new rest
            ≡ specifiers row.old (plain.Word token rest)) };

    /// A typedef name after the others (6.7.7).
    fn push_typedef_name(&self, row: &mut Self::Specifiers, token: Token) -> Result<(), OutOfMemory>
        ensures { OnOk result ((rest : plain.Specifiers) → specifiers row.new rest
            ≡ specifiers row.old (plain.TypedefName token rest)) };

    /// `struct` or `enum` and its tag after the others (6.7.2.3).
    fn push_tagged(
        &self,
        row: &mut Self::Specifiers,
        keyword: Token,
        tag: Token,
    ) -> Result<(), OutOfMemory>
        ensures { OnOk result ((rest : plain.Specifiers) → specifiers row.new rest
            ≡ specifiers row.old (plain.Tagged keyword tag rest)) };

    /// `struct` [tag] `{` members `}` after the others (6.7.2.1).
    fn push_struct(
        &self,
        row: &mut Self::Specifiers,
        keyword: Token,
        tag: Option<Token>,
        opening: Token,
        body: Self::Members,
        closing: Token,
    ) -> Result<(), OutOfMemory>
        ensures { OnOk result ((rest : plain.Specifiers) → specifiers row.new rest
            ≡ specifiers row.old (plain.Struct keyword tag opening (members body plain.NoMembers) closing rest)) };

    /// `enum` [tag] `{` enumerators `}` after the others (6.7.2.2).
    fn push_enum(
        &self,
        row: &mut Self::Specifiers,
        keyword: Token,
        tag: Option<Token>,
        opening: Token,
        body: Self::Enumerators,
        closing: Token,
    ) -> Result<(), OutOfMemory>
        ensures { OnOk result ((rest : plain.Specifiers) → specifiers row.new rest
            ≡ specifiers row.old (plain.Enum keyword tag opening (enumerators body) closing rest)) };

    /// The only specifier, where it is a word.
    fn only_word(&self, row: &Self::Specifiers) -> Option<Token>
        ensures { result ≡ only_word_of (specifiers row.now plain.NoSpecifiers) };

    /// No members.
    fn no_members(&self) -> Self::Members
        ensures { (rest : plain.Members) → members result rest ≡ rest };

    /// Specifiers, declarators and `;` after the others (6.7.2.1).
    fn push_member(
        &self,
        row: &mut Self::Members,
        of: Self::Specifiers,
        first: Self::Declarator,
        others: Self::Declarators,
        semicolon: Token,
    ) -> Result<(), OutOfMemory>
        ensures { OnOk result ((rest : plain.Members) → members row.new rest
            ≡ members row.old (plain.Member (specifiers of plain.NoSpecifiers) (declarator first)
            (declarators others plain.NoDeclarators) semicolon rest)) };

    /// Whether there is a member.
    fn has_member(&self, row: &Self::Members) -> bool
        ensures { result ≡ fitting.has_member (members row.now plain.NoMembers) };

    /// No further declarators.
    fn no_declarators(&self) -> Self::Declarators
        ensures { (rest : plain.Declarators) → declarators result rest ≡ rest };

    /// A comma and a declarator after the others.
    fn push_declarator(
        &self,
        row: &mut Self::Declarators,
        comma: Token,
        next: Self::Declarator,
    ) -> Result<(), OutOfMemory>
        ensures { OnOk result ((rest : plain.Declarators) → declarators row.new rest
            ≡ declarators row.old (plain.Also comma (declarator next) rest)) };

    /// An enumerator without a value (6.7.2.2).
    fn enumerator(&self, name: Token) -> Self::Enumerator
        ensures last { (comma : Option Token) → last_of result comma ≡ plain.LastOne name comma }
        ensures before { (comma : Token) (rest : plain.Enumerators) → before_others result comma rest
            ≡ plain.One name comma rest };

    /// An enumerator, `=` and its value (6.7.2.2).
    fn valued_enumerator(
        &self,
        name: Token,
        equals: Token,
        value: Self::Expr,
    ) -> Result<Self::Enumerator, OutOfMemory>
        ensures last { IfOk result (λ made. (comma : Option Token) → last_of made comma
            ≡ plain.LastValued name equals (expr value) comma) }
        ensures before { IfOk result (λ made. (comma : Token) (rest : plain.Enumerators) → before_others made comma rest
            ≡ plain.Valued name equals (expr value) comma rest) };

    /// No enumerators.
    fn no_enumerators(&self) -> Self::Earlier
        ensures { (rest : plain.Enumerators) → earlier result rest ≡ rest };

    /// An enumerator and a comma after the others.
    fn push_enumerator(
        &self,
        row: &mut Self::Earlier,
        next: Self::Enumerator,
        comma: Token,
    ) -> Result<(), OutOfMemory>
        ensures { OnOk result ((rest : plain.Enumerators) → earlier row.new rest
            ≡ earlier row.old (before_others next comma rest)) };

    /// Enumerators, the last one, and maybe a comma.
    fn all_enumerators(
        &self,
        row: Self::Earlier,
        final_one: Self::Enumerator,
        comma: Option<Token>,
    ) -> Self::Enumerators
        ensures { enumerators result ≡ earlier row (last_of final_one comma) };

    /// A declarator with nothing in the middle (6.7.5, 6.7.6).
    fn nameless(&self, stars: Self::Tokens, row: Self::Dims) -> Self::Declarator
        ensures { declarator result ≡ plain.Abstract (tokens stars) (dims row plain.NoDims) };

    /// A declarator with a name in the middle (6.7.5).
    fn named(&self, stars: Self::Tokens, name: Token, row: Self::Dims) -> Self::Declarator
        ensures { declarator result ≡ plain.Named (tokens stars) name (dims row plain.NoDims) };

    /// A declarator with `(` declarator `)` in the middle (6.7.5).
    fn nested(
        &self,
        stars: Self::Tokens,
        opening: Token,
        inner: Self::Declarator,
        closing: Token,
        row: Self::Dims,
    ) -> Result<Self::Declarator, OutOfMemory>
        ensures { IfOk result (λ tree. declarator tree
            ≡ plain.Nested (tokens stars) opening (declarator inner) closing (dims row plain.NoDims)) };

    /// Whether something of a declarator is written.
    fn is_written(&self, tree: &Self::Declarator) -> bool
        ensures { result ≡ fitting.is_written (declarator tree.now) };

    /// No suffixes of a declarator.
    fn no_dims(&self) -> Self::Dims
        ensures { (rest : plain.Dims) → dims result rest ≡ rest };

    /// `[` `]` after the others (6.7.5.2).
    fn push_open(
        &self,
        row: &mut Self::Dims,
        opening: Token,
        closing: Token,
    ) -> Result<(), OutOfMemory>
        ensures { OnOk result ((rest : plain.Dims) → dims row.new rest
            ≡ dims row.old (plain.Open opening closing rest)) };

    /// `[` expression `]` after the others (6.7.5.2).
    fn push_sized(
        &self,
        row: &mut Self::Dims,
        opening: Token,
        size: Self::Expr,
        closing: Token,
    ) -> Result<(), OutOfMemory>
        ensures { OnOk result ((rest : plain.Dims) → dims row.new rest
            ≡ dims row.old (plain.Sized opening (expr size) closing rest)) };

    /// `(` parameters `)` after the others (6.7.5.3).
    fn push_function(
        &self,
        row: &mut Self::Dims,
        opening: Token,
        list: Self::Params,
        closing: Token,
    ) -> Result<(), OutOfMemory>
        ensures { OnOk result ((rest : plain.Dims) → dims row.new rest
            ≡ dims row.old (plain.Function opening (params list) closing rest)) };

    /// No parameters (6.7.5.3).
    fn no_params(&self) -> Self::Params
        ensures { params result ≡ plain.NoParams };

    /// `void` alone (6.7.5.3).
    fn void_params(&self, token: Token) -> Self::Params
        ensures { params result ≡ plain.VoidParams token };

    /// A first parameter, further ones, and maybe a comma and `...` (6.7.5.3).
    fn parameters(
        &self,
        of: Self::Specifiers,
        first: Self::Declarator,
        others: Self::MoreParams,
        ellipsis: Option<(Token, Token)>,
    ) -> Self::Params
        ensures { params result ≡ plain.Parameters (specifiers of plain.NoSpecifiers) (declarator first)
            (more_params others (ellipsis_end ellipsis)) };

    /// No further parameters.
    fn no_more_params(&self) -> Self::MoreParams
        ensures { (rest : plain.MoreParams) → more_params result rest ≡ rest };

    /// A comma and a parameter after the others.
    fn push_param(
        &self,
        row: &mut Self::MoreParams,
        comma: Token,
        of: Self::Specifiers,
        next: Self::Declarator,
    ) -> Result<(), OutOfMemory>
        ensures { OnOk result ((rest : plain.MoreParams) → more_params row.new rest
            ≡ more_params row.old (plain.More comma (specifiers of plain.NoSpecifiers) (declarator next) rest)) };

    /// Whether there is a further parameter.
    fn has_param(&self, row: &Self::MoreParams) -> bool
        ensures { (rest : plain.MoreParams) → fitting.is_end (more_params row.now rest)
            ≡ (not result && fitting.is_end rest) };
}
