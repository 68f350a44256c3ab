//! How far a file of the form is read.
ghost use Rattle.std.specs.Prelude.{◌≡◌};
ghost use Rattle.ck_cli.specs.Reading.{next_position, role_at};

use crate::calls::KernelCall;
use crate::lexemes::Lexeme;

/// What may come next, after a prefix of a file of the form.
#[derive(Clone, Copy)]
pub(crate) enum Position {
    /// A prototype or the opening of `main`.
    Outside,
    PrototypeName,
    PrototypeOpen,
    PrototypeVoid,
    PrototypeClose,
    PrototypeEnd,
    MainName,
    MainOpen,
    MainVoid,
    MainClose,
    MainBrace,
    /// A call, or the brace that closes `main`.
    Body,
    CallOpen,
    CallClose,
    CallEnd,
    /// Nothing.
    End,
}

/// What a token says at its position.
#[derive(Clone, Copy)]
pub(crate) enum Role {
    /// This call has a prototype.
    Prototype(KernelCall),
    /// `main` begins.
    Main,
    /// `main` makes this call.
    Call(KernelCall),
    /// No more than that the file goes on.
    Other,
}

impl Position {
    /// The position after a token, where a file of the form can go on after it. Whether a called name has a
    /// prototype isn't looked at.
    pub(crate) fn next(self, lexeme: Lexeme) -> Option<Position>
        ensures { result ≡ next_position self lexeme }
    {
        match (self, lexeme) {
            (Position::Outside, Lexeme::Void) => Some(Position::PrototypeName),
            (Position::PrototypeName, Lexeme::Kernel(_)) => Some(Position::PrototypeOpen),
            (Position::PrototypeOpen, Lexeme::Open) => Some(Position::PrototypeVoid),
            (Position::PrototypeVoid, Lexeme::Void) => Some(Position::PrototypeClose),
            (Position::PrototypeClose, Lexeme::Close) => Some(Position::PrototypeEnd),
            (Position::PrototypeEnd, Lexeme::Semicolon) => Some(Position::Outside),
            (Position::Outside, Lexeme::Int) => Some(Position::MainName),
            (Position::MainName, Lexeme::Main) => Some(Position::MainOpen),
            (Position::MainOpen, Lexeme::Open) => Some(Position::MainVoid),
            (Position::MainVoid, Lexeme::Void) => Some(Position::MainClose),
            (Position::MainClose, Lexeme::Close) => Some(Position::MainBrace),
            (Position::MainBrace, Lexeme::LeftBrace) => Some(Position::Body),
            (Position::Body, Lexeme::Kernel(_)) => Some(Position::CallOpen),
            (Position::CallOpen, Lexeme::Open) => Some(Position::CallClose),
            (Position::CallClose, Lexeme::Close) => Some(Position::CallEnd),
            (Position::CallEnd, Lexeme::Semicolon) => Some(Position::Body),
            (Position::Body, Lexeme::RightBrace) => Some(Position::End),
            _ => None,
        }
    }

    /// What a token that comes here says.
    pub(crate) fn role(self, lexeme: Lexeme) -> Role
        ensures { result ≡ role_at self lexeme }
    {
        match (self, lexeme) {
            (Position::PrototypeName, Lexeme::Kernel(call)) => Role::Prototype(call),
            (Position::MainName, Lexeme::Main) => Role::Main,
            (Position::Body, Lexeme::Kernel(call)) => Role::Call(call),
            _ => Role::Other,
        }
    }
}
