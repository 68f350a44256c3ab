//! How deep trees nest, in sixteen bits.
ghost use Rattle.std.specs.Prelude.{◌≡◌, suc, max};
ghost use Rattle.ck_boxes.specs.Depths.{kept};

/// One deeper, up to the greatest number.
pub fn one_more(depth: u16) -> u16
    ensures { result ≡ kept (suc depth) }
{
    if depth == u16::MAX { depth } else { depth + 1 }
}

/// The deeper of two.
pub fn deeper(first: u16, second: u16) -> u16
    ensures { result ≡ max first second }
{
    first.max(second)
}
