//! Scopes that open and close, and what names mean in them (C99 6.2.1).
ghost use Rattle.std.specs.Prelude.{◌≡◌, ◌<◌, [], length, IfOk, OnOk, OnErr};
ghost use Rattle.ck_scopes.specs.Environments as spec;
ghost use Rattle.ck_scopes.specs.Environments.{number_of};
ghost use Rattle.ck_scopes.specs.Ordered.{start_of};
ghost use Rattle.ck_scopes.specs.Seen.{see};

use crate::sight::Sight;
use crate::spaces::Space;
use ck_base::OutOfMemory;
use ck_tables::{EntryId, NameId};
use std::alloc::Global;
use std::marker::Model;

/// A declaration: the number of its file, the innermost scope that is open there, none at file scope, its name, and the
/// name space in which it is looked up, if any.
#[derive(Clone, Copy, Debug)]
struct Row {
    file: u32,
    scope: Option<u32>,
    name: NameId,
    space: Option<Space>,
}

/// A scope that has opened: how many declarations are before it, and the scope around it, none at file scope.
#[derive(Clone, Copy, Debug)]
struct Opened {
    start: u32,
    outer: Option<u32>,
}

/// The declarations of a project so far, and the scopes that are open. Scopes are numbered in the order in which they
/// open, and a scope is kept when it has closed, for the declarations in it.
#[derive(Debug, Drop)]
pub struct Scopes {
    rows: Vec<Row>,
    opened: Vec<Opened>,
    file: u32,
    scope: Option<u32>,
    sight: Sight,
}

impl Model for Scopes {
    ghost use Rattle.std.specs.Prelude.{reverse};
    ghost use Rattle.ck_scopes.specs.Environments.{Environment};

    ghost Value = { Environment };

    ghost use Rattle.ck_scopes.specs.Kept.{environment_of, IsKept};

    ghost view = { λ s. environment_of (reverse s.rows.items) (reverse s.opened.items) s.file s.scope };

    ghost invariant = { λ s. IsKept
        (reverse s.rows.items)
        (reverse s.opened.items)
        s.file
        s.scope
        s.sight };
}

impl Scopes {
    /// No declarations, before the file of number 0.
    pub fn new(alloc: Global) -> Scopes
        ensures { result ≡ spec.start }
    {
        Scopes {
            rows: Vec::new(alloc),
            opened: Vec::new(alloc),
            file: 0,
            scope: None,
            sight: Sight::new(alloc),
        }
    }

    /// Goes on to the file of the next number: what was declared stays in the list, no scope is open, and nothing is in
    /// sight.
    pub fn next_file(&mut self) -> Result<(), OutOfMemory>
        ensures next { OnOk result (self.new ≡ spec.next_file self.old) }
        ensures unchanged { OnErr result (self.new ≡ self.old) }
    {
        let Some(file) = self.file.checked_add(1) else {
            return Err(OutOfMemory);
        };
        self.sight.hide_from(0);
        self.file = file;
        self.scope = None;
        Ok(())
    }

    /// Opens a scope in the innermost one.
    pub fn open(&mut self) -> Result<(), OutOfMemory>
        ensures inside { OnOk result (self.new ≡ spec.inside self.old) }
        ensures unchanged { OnErr result (self.new ≡ self.old) }
    {
        let start = number(self.rows.len())?;
        let scope = number(self.opened.len())?;
        let outer = self.scope;
        self.opened.push(Opened { start, outer })?;
        self.scope = Some(scope);
        Ok(())
    }

    /// Closes the innermost scope: what it declared is hidden, and what it hid is back.
    pub fn close(&mut self)
        requires { 0 < length self.old.scope }
        ensures { self.new ≡ spec.outside self.old }
    {
        let Some(scope) = self.scope else {
            return;
        };
        let closing = self.opened[scope as usize];
        self.sight.hide_from(closing.start);
        self.scope = closing.outer;
    }

    /// Declares a name in the innermost scope. A member or a label has no name space in which it is looked up by
    /// scopes; it has a number too.
    pub fn declare(&mut self, name: NameId, space: Option<Space>) -> Result<EntryId, OutOfMemory>
        ensures declared { OnOk result (self.new ≡ spec.declaring self.old name.0 space) }
        ensures number { IfOk result (λ entry. entry.0 ≡ length self.old.declared) }
        ensures unchanged { OnErr result (self.new ≡ self.old) }
    {
        let count = number(self.rows.len())?;
        let row = Row {
            file: self.file,
            scope: self.scope,
            name,
            space,
        };
        self.rows.push(row)?;
        match show(&mut self.sight, count, name, space) {
            Ok(()) => Ok(EntryId(count)),
            Err(error) => {
                self.rows.truncate(count as usize);
                Err(error)
            }
        }
    }

    /// What a name means: its latest declaration in an open scope of this file.
    pub fn meant(&self, space: Space, name: NameId) -> Option<EntryId>
        ensures { number_of result ≡ spec.meant self.now space name.0 }
    {
        match self.sight.latest(space, name.0) {
            Some(number) => Some(EntryId(number)),
            None => None,
        }
    }

    /// What a name means by the declarations of the innermost scope alone.
    pub fn in_innermost(&self, space: Space, name: NameId) -> Option<EntryId>
        ensures { number_of result ≡ spec.in_innermost self.now space name.0 }
    {
        let start = self.start();
        let number = self.sight.latest(space, name.0)?;
        if start <= number {
            Some(EntryId(number))
        } else {
            None
        }
    }

    /// How many declarations are before the innermost scope.
    fn start(&self) -> u32
        ensures { result ≡ start_of self.now.scope }
    {
        match self.scope {
            Some(scope) => self.opened[scope as usize].start,
            None => 0,
        }
    }
}

/// Shows a declaration, where it is looked up by scopes.
fn show(
    sight: &mut Sight,
    number: u32,
    name: NameId,
    space: Option<Space>,
) -> Result<(), OutOfMemory>
    ensures shown { OnOk result (sight.new ≡ see space name.0 number sight.old) }
    ensures unchanged { OnErr result (sight.new ≡ sight.old) }
{
    match space {
        Some(space) => sight.show(number, space, name.0),
        None => Ok(()),
    }
}

/// A count as a number of a row.
fn number(count: usize) -> Result<u32, OutOfMemory>
    ensures { IfOk result (λ n. n ≡ count) }
{
    match u32::try_from(count) {
        Ok(number) => Ok(number),
        Err(_) => Err(OutOfMemory),
    }
}
