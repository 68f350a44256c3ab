//! The file form, read from the tokens.
ghost use Rattle.std.specs.Prelude.{◌≡◌, ◌≤◌, length, All, IfOk};
ghost use Rattle.ck_cli.specs.Reading.{IsReading};
ghost use Rattle.ck_cli.specs.Verdict.{most_bytes};

use crate::calls::KernelCall;
use crate::declared::Declared;
use crate::lexemes::{Lexeme, lexeme_for};
use crate::position::{Position, Role};
use crate::source::text_of;
use ck_base::{OutOfMemory, Token};
use std::alloc::Global;

/// A call that `main` makes, and the offset at which it begins.
#[derive(Clone, Copy)]
pub(crate) struct Call {
    pub(crate) call: KernelCall,
    pub(crate) start: u32,
}

/// A file of the form: the offset at which its name `main` begins, and the calls that it makes.
#[derive(Drop)]
pub(crate) struct Form {
    pub(crate) main: u32,
    pub(crate) calls: Vec<Call>,
}

/// What the tokens of a file are.
#[derive(Drop)]
pub(crate) enum Reading {
    /// A file of the form.
    Form(Form),
    /// None: no file of the form goes on after the token at this offset, or none ends with the file.
    Stray(u32),
}

/// What is read of a file so far.
#[derive(Drop)]
struct Reader {
    position: Position,
    declared: Declared,
    main: u32,
    calls: Vec<Call>,
}

impl Reader {
    ghost use Rattle.std.specs.Prelude.{Some, None, if◌then◌else◌};
    ghost use Rattle.ck_cli.specs.Reading.{IsEnded, after, beginning};
    ghost use Rattle.ck_cli.specs.Readers.{progress};

    /// Nothing.
    fn new(alloc: Global) -> Reader
        ensures { progress result ≡ beginning }
    {
        Reader {
            position: Position::Outside,
            declared: Declared::none(),
            main: 0,
            calls: Vec::new(alloc),
        }
    }

    /// Reads a token that begins at an offset. Whether a file of the form can go on after it.
    fn take(&mut self, lexeme: Lexeme, start: u32) -> Result<bool, OutOfMemory>
        ensures { IfOk result (λ went_on.
            (if went_on then Some (progress self.new) else None) ≡ after (progress self.old) lexeme start) }
    {
        let Some(next) = self.position.next(lexeme) else {
            return Ok(false);
        };
        match self.position.role(lexeme) {
            Role::Prototype(call) => self.declared = self.declared.with(call),
            Role::Main => self.main = start,
            Role::Call(call) => {
                if !self.declared.has(call) {
                    return Ok(false);
                }
                self.calls.push(Call { call, start })?;
            }
            Role::Other => {}
        }
        self.position = next;
        Ok(true)
    }

    /// What was read, where the file ends at an offset.
    fn end(self, offset: u32) -> Reading
        ensures { IsEnded (progress self) offset result }
    {
        if matches!(self.position, Position::End) {
            Reading::Form(Form {
                main: self.main,
                calls: self.calls,
            })
        } else {
            Reading::Stray(offset)
        }
    }
}

/// What these tokens of a file are.
pub(crate) fn read(alloc: Global, bytes: &[u8], tokens: &[Token]) -> Result<Reading, OutOfMemory>
    requires short { length bytes.now ≤ most_bytes }
    requires within { All (λ t. (t.span.start ≤ t.span.end) × (t.span.end ≤ length bytes.now)) tokens.now }
    ensures { IfOk result (IsReading bytes.now tokens.now) }
{
    let mut reader = Reader::new(alloc);
    for token in tokens {
        let lexeme = lexeme_for(text_of(bytes, token));
        if !reader.take(lexeme, token.span.start)? {
            return Ok(Reading::Stray(token.span.start));
        }
    }
    Ok(reader.end(bytes.len() as u32))
}
