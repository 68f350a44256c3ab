//! Runs of bytes of one class, by blocks of 32 bytes.
ghost use Rattle.std.specs.Prelude.{◌≡◌, ◌≤◌, length, drop};
ghost use Rattle.std.specs.List.{prefix_len};
ghost use Rattle.ck_lexer.specs.Runs as spec;

use crate::blocks::{not_blank, not_name, star};
use crate::bytes::{is_identifier_byte, is_line_space};
use std::simd::prelude::*;

/// How many bytes a block has.
const BLOCK: usize = 32;

/// A class of bytes that runs are made of.
#[derive(Clone, Copy)]
pub enum Class {
    /// White space within a line: space, tab, vertical tab, form feed and carriage return.
    Blank,
    /// ASCII letters, digits and the underscore.
    Name,
    /// Every byte but `*`.
    NotStar,
}

impl Class {
    ghost use Rattle.std.specs.Prelude.{◌≡◌, map};
    ghost use Rattle.std.specs.List.{prefix_len};
    ghost use Rattle.std.specs.Simd.Lanes.{mask_l};
    ghost use Rattle.ck_lexer.specs.Runs as spec;

    /// Whether a byte is of this class.
    fn has(&self, byte: u8) -> bool
        ensures { result ≡ spec.is_in self.now byte }
    {
        match self {
            Class::Blank => is_line_space(byte),
            Class::Name => is_identifier_byte(byte),
            Class::NotStar => byte != b'*',
        }
    }

    /// How many bytes of this class a text begins with, byte by byte.
    fn run(&self, text: &[u8]) -> usize
        ensures { result ≡ prefix_len (spec.is_in self.now) text.now }
    {
        text.iter().take_while(|byte| self.has(**byte)).count()
    }

    /// A bit for each byte of a block, from the lowest on: 1 where the byte is not of this class.
    fn others_in(&self, block: u8x32) -> u64
        ensures { result ≡ mask_l (map (spec.is_out self.now) block) }
    {
        match self {
            Class::Blank => not_blank(block),
            Class::Name => not_name(block),
            Class::NotStar => star(block),
        }
    }

    /// How many bytes of this class a block begins with.
    fn run_in_block(&self, block: u8x32) -> usize
        ensures { result ≡ prefix_len (spec.is_in self.now) block }
    {
        let others = self.others_in(block);
        if others == 0 {
            BLOCK
        } else {
            others.trailing_zeros() as usize
        }
    }
}

/// How many bytes from an offset on are of a class, before the first that isn't or the end.
pub fn class_run(bytes: &[u8], at: usize, class: &Class) -> usize
    requires { at ≤ length bytes.now }
    ensures { result ≡ prefix_len (spec.is_in class.now) (drop at bytes.now) }
{
    let mut end = at;
    'wide: while bytes.len() - end >= BLOCK {
        let run = class.run_in_block(u8x32::from_slice(&bytes[end..]));
        if run < BLOCK {
            return end - at + run;
        }
        end += BLOCK;
    }
    end - at + class.run(&bytes[end..])
}
