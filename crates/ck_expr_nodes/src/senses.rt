//! What names and operators make of values, over the numbers of a project's tables.
ghost use Rattle.std.specs.Prelude.{◌≡◌, ℕ, All, IfOk};
ghost use Rattle.ck_prog.specs.AssignmentSenses.{assignment_sense, choice_sense};
ghost use Rattle.ck_prog.specs.BinarySenses.{binary_sense};
ghost use Rattle.ck_prog.specs.Declarations.{Place, text};
ghost use Rattle.ck_prog.specs.Operators as operators;
ghost use Rattle.ck_prog.specs.PostfixSenses as postfix;
ghost use Rattle.ck_prog.specs.Typing.{constant_sense, strings_sense};
ghost use Rattle.ck_prog.specs.UnarySenses.{cast_sense, prefix_sense};
ghost use Rattle.ck_tables.specs.Readings.{Readings, plain_facts, plain_type};
ghost use Rattle.ck_expr_nodes.specs.Finding.{IsAccessed, IsFound, Stays};
ghost use Rattle.ck_expr_nodes.specs.Made as made;
ghost use Rattle.ck_expr_nodes.specs.SenseViews.{known_facts, plain_sense, plain_senses, sense_in, type_alone};

use ck_base::{OutOfMemory, Token};
use ck_prog::{Assigning, Operator, Prefix, Role};
use ck_tables::{Constancy, EntryId, Facts, MemberId};
use ck_types::{Qualifiers, TypeId};

/// What an expression tells the one around it (C99 6.3.2.1, 6.6).
#[derive(Clone, Copy)]
pub struct Sense {
    /// its type before any conversion; none where C99 gives none
    pub type_id: Option<TypeId>,
    /// the qualifiers of its type
    pub qualifiers: Qualifiers,
    /// it designates an object
    pub lvalue: bool,
    /// whether it is constant
    pub constancy: Constancy,
    /// it is a null pointer constant
    pub null: bool,
    /// its value is an address constant or a number; or it designates an object whose address is one
    pub fixed: bool,
    /// it designates a part of an object of storage class register
    pub register: bool,
}

impl Sense {
    /// The sense of a value of which its type alone is known.
    pub fn of_type(type_id: Option<TypeId>) -> Sense
        ensures { result ≡ type_alone type_id }
    {
        Sense {
            type_id,
            qualifiers: Qualifiers {
                constant: false,
                volatile: false,
            },
            lvalue: false,
            constancy: Constancy::Varying,
            null: false,
            fixed: false,
            register: false,
        }
    }

    /// The facts of an expression with this sense.
    pub fn facts(self, role: Role, first: Token, holds_call: bool) -> Facts
        ensures facts { (w : Readings) → plain_facts w result ≡ known_facts role first (plain_sense w self) holds_call }
        ensures sense { sense_in result ≡ self }
    {
        Facts {
            type_id: self.type_id,
            constancy: self.constancy,
            first,
            qualifiers: self.qualifiers,
            lvalue: self.lvalue,
            null: self.null,
            fixed: self.fixed,
            register: self.register,
            role,
            holds_call,
        }
    }
}

/// The sense of an expression with these facts.
pub fn sense_of(facts: Facts) -> Sense
    ensures { result ≡ sense_in facts }
{
    Sense {
        type_id: facts.type_id,
        qualifiers: facts.qualifiers,
        lvalue: facts.lvalue,
        constancy: facts.constancy,
        null: facts.null,
        fixed: facts.fixed,
        register: facts.register,
    }
}

/// What a name is found to be (6.5.1).
#[derive(Clone, Copy)]
pub struct Found {
    /// the sense of its value
    pub sense: Sense,
    /// its declaration
    pub entry: Option<EntryId>,
    /// its declaration, if that is one of a function
    pub function: Option<EntryId>,
}

/// What the name of a member is found to be (6.5.2.3).
#[derive(Clone, Copy)]
pub struct Accessed {
    /// the sense of the member
    pub sense: Sense,
    /// the member
    pub member: Option<MemberId>,
}

/// The names, types and values of a project while its expressions are read.
///
/// `reads` says which readings of its numbers are right, now and when the project has grown; `fits` says that a sense
/// is over numbers that it has; `marks` says at which place it had so many declarations.
pub trait Senses {
    ghost use Rattle.ck_expr_nodes.specs.declared.senses.Sense.{Sense};

    ghost place: { Self → Place };

    ghost reads: { Self → Readings → Type 0 };

    ghost fits: { Self → Sense → Type 0 };

    ghost marks: { Self → ℕ → Place → Type 0 };

    /// How many declarations there are so far.
    fn mark(&self) -> u32
        ensures { marks self.now result (place self.now) };

    /// The operator that a token before an operand is (6.5.3).
    fn prefix(&self, operator: Token) -> Prefix
        ensures { result ≡ operators.prefix (text (place self.now) operator) };

    /// The operator that a token between two operands is (6.5.5 to 6.5.14, 6.5.17).
    fn operator(&self, operator: Token) -> Operator
        ensures { result ≡ operators.operator (text (place self.now) operator) };

    /// The assignment that a token is (6.5.16).
    fn assigning(&self, operator: Token) -> Assigning
        ensures { result ≡ operators.assigning (text (place self.now) operator) };

    /// What a name means (6.5.1).
    fn name(&mut self, name: Token) -> Result<Found, OutOfMemory>
        ensures stays { Stays reads fits marks self.old self.new }
        ensures there { place self.new ≡ place self.old }
        ensures fitting { IfOk result (λ f. fits self.new f.sense) }
        ensures found { IfOk result (λ f. (w : Readings) → reads self.new w → IsFound w (place self.old) name f) };

    /// The sense of a constant (6.4.4).
    fn constant(&mut self, token: Token) -> Result<Sense, OutOfMemory>
        ensures stays { Stays reads fits marks self.old self.new }
        ensures there { place self.new ≡ place self.old }
        ensures fitting { IfOk result (λ s. fits self.new s) }
        ensures sense { IfOk result (λ s. (w : Readings) → reads self.new w
            → plain_sense w s ≡ constant_sense (place self.old) token) };

    /// The sense of string literals beside each other (6.4.5).
    fn strings(&mut self, first: Token, others: &[Token]) -> Result<Sense, OutOfMemory>
        ensures stays { Stays reads fits marks self.old self.new }
        ensures there { place self.new ≡ place self.old }
        ensures fitting { IfOk result (λ s. fits self.new s) }
        ensures sense { IfOk result (λ s. (w : Readings) → reads self.new w
            → plain_sense w s ≡ strings_sense (place self.old) first others.now) };

    /// Whether a token before a member's name is `.` (6.5.2.3).
    fn is_dot(&self, operator: Token) -> bool
        ensures { result ≡ made.is_dot (place self.now) operator };

    /// What an index makes, at a place that is known by its number, of the value before it (6.5.2.1).
    fn element(&mut self, at: u32, a: Sense, index: Sense) -> Result<Sense, OutOfMemory>
        requires first { fits self.old a }
        requires second { fits self.old index }
        ensures stays { Stays reads fits marks self.old self.new }
        ensures there { place self.new ≡ place self.old }
        ensures fitting { IfOk result (λ s. fits self.new s) }
        ensures sense { IfOk result (λ s. (w : Readings) (p : Place) → reads self.new w → marks self.old at p
            → plain_sense w s ≡ postfix.element p (plain_sense w a) (plain_sense w index)) };

    /// What a call makes, at a place that is known by its number, of what is called and its arguments (6.5.2.2).
    fn call(&mut self, at: u32, called: Sense, arguments: &[Sense]) -> Result<Sense, OutOfMemory>
        requires called { fits self.old called }
        requires arguments { All (fits self.old) arguments.now }
        ensures stays { Stays reads fits marks self.old self.new }
        ensures there { place self.new ≡ place self.old }
        ensures fitting { IfOk result (λ s. fits self.new s) }
        ensures sense { IfOk result (λ s. (w : Readings) (p : Place) → reads self.new w → marks self.old at p
            → plain_sense w s ≡ postfix.result p (plain_sense w called) (plain_senses w arguments.now)) };

    /// What the name of a member means after `.` or after `->` (6.5.2.3).
    fn access(&mut self, is_dot: bool, a: Sense, name: Token) -> Result<Accessed, OutOfMemory>
        requires { fits self.old a }
        ensures stays { Stays reads fits marks self.old self.new }
        ensures there { place self.new ≡ place self.old }
        ensures fitting { IfOk result (λ f. fits self.new f.sense) }
        ensures found { IfOk result (λ f. (w : Readings) → reads self.new w
            → IsAccessed w (place self.old) is_dot (plain_sense w a) name f) };

    /// What a cast to a type makes of its operand (6.5.4).
    fn cast(&mut self, to: Option<TypeId>, a: Sense) -> Result<Sense, OutOfMemory>
        requires to { fits self.old (type_alone to) }
        requires operand { fits self.old a }
        ensures stays { Stays reads fits marks self.old self.new }
        ensures there { place self.new ≡ place self.old }
        ensures fitting { IfOk result (λ s. fits self.new s) }
        ensures sense { IfOk result (λ s. (w : Readings) → reads self.new w
            → plain_sense w s ≡ cast_sense (plain_type w to) (plain_sense w a)) };

    /// What an operator makes, at a place that is known by its number, of its operand, which may be a `*` and its
    /// operand (6.5.3).
    fn unary(
        &mut self,
        at: u32,
        operator: Prefix,
        of_star: bool,
        a: Sense,
    ) -> Result<Sense, OutOfMemory>
        requires { fits self.old a }
        ensures stays { Stays reads fits marks self.old self.new }
        ensures there { place self.new ≡ place self.old }
        ensures fitting { IfOk result (λ s. fits self.new s) }
        ensures sense { IfOk result (λ s. (w : Readings) (p : Place) → reads self.new w → marks self.old at p
            → plain_sense w s ≡ prefix_sense p of_star operator (plain_sense w a)) };

    /// What an operator makes, at a place that is known by its number, of its two operands (6.5.5 to 6.5.14, 6.5.17).
    fn binary(
        &mut self,
        at: u32,
        operator: Operator,
        a: Sense,
        b: Sense,
    ) -> Result<Sense, OutOfMemory>
        requires first { fits self.old a }
        requires second { fits self.old b }
        ensures stays { Stays reads fits marks self.old self.new }
        ensures there { place self.new ≡ place self.old }
        ensures fitting { IfOk result (λ s. fits self.new s) }
        ensures sense { IfOk result (λ s. (w : Readings) (p : Place) → reads self.new w → marks self.old at p
            → plain_sense w s ≡ binary_sense p operator (plain_sense w a) (plain_sense w b)) };

    /// What `? :` makes of its operands (6.5.15).
    fn choice(&mut self, test: Sense, a: Sense, b: Sense) -> Result<Sense, OutOfMemory>
        requires test { fits self.old test }
        requires first { fits self.old a }
        requires second { fits self.old b }
        ensures stays { Stays reads fits marks self.old self.new }
        ensures there { place self.new ≡ place self.old }
        ensures fitting { IfOk result (λ s. fits self.new s) }
        ensures sense { IfOk result (λ s. (w : Readings) → reads self.new w
            → plain_sense w s ≡ choice_sense (plain_sense w test) (plain_sense w a) (plain_sense w b)) };

    /// What an assignment makes, at a place that is known by its number, of its operands (6.5.16).
    fn assignment(
        &mut self,
        at: u32,
        operator: Assigning,
        target: Sense,
        value: Sense,
    ) -> Result<Sense, OutOfMemory>
        requires target { fits self.old target }
        requires value { fits self.old value }
        ensures stays { Stays reads fits marks self.old self.new }
        ensures there { place self.new ≡ place self.old }
        ensures fitting { IfOk result (λ s. fits self.new s) }
        ensures sense { IfOk result (λ s. (w : Readings) (p : Place) → reads self.new w → marks self.old at p
            → plain_sense w s ≡ assignment_sense p operator (plain_sense w target) (plain_sense w value)) };
}
