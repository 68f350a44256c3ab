//! Which bytes of a block of 32 bytes are of a class.
ghost use Rattle.std.specs.Prelude.{◌≡◌, map};
ghost use Rattle.std.specs.Simd.Lanes.{mask_l};
ghost use Rattle.ck_lexer.specs.Runs as spec;
ghost use Rattle.ck_lexer.specs.declared.runs.Class.TheVariants as class;

use std::simd::prelude::*;

/// The bytes that are no white space within a line.
pub(crate) fn not_blank(block: u8x32) -> u64
    ensures { result ≡ mask_l (map (spec.is_out class.Blank) block) }
{
    let from_tab = block - u8x32::splat(b'\t');
    let other = from_tab.simd_ge(u8x32::splat(5)) | block.simd_eq(u8x32::splat(b'\n'));
    (other & block.simd_ne(u8x32::splat(b' '))).to_bitmask()
}

/// The bytes that are no letter, digit or underscore.
pub(crate) fn not_name(block: u8x32) -> u64
    ensures { result ≡ mask_l (map (spec.is_out class.Name) block) }
{
    let from_a = (block | u8x32::splat(0x20)) - u8x32::splat(b'a');
    let from_0 = block - u8x32::splat(b'0');
    let other = from_a.simd_ge(u8x32::splat(26)) & from_0.simd_ge(u8x32::splat(10));
    (other & block.simd_ne(u8x32::splat(b'_'))).to_bitmask()
}

/// The bytes that are `*`.
pub(crate) fn star(block: u8x32) -> u64
    ensures { result ≡ mask_l (map (spec.is_out class.NotStar) block) }
{
    block.simd_eq(u8x32::splat(b'*')).to_bitmask()
}
