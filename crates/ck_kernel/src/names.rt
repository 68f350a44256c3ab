//! The row of a name.
ghost use Rattle.std.specs.Prelude.{◌≡◌, map, find, IfSome};
ghost use Rattle.ck_kernel.specs.KernelTable.{IsRow, row_named};
ghost use Rattle.ck_kernel.specs.Lengths.{FindsRows, FindsRowsOf, begins_like_one, names};

use crate::rows::calls;
use ck_base::RowId;

/// For each length from 0, the rows whose names have it.
static BY_LENGTH: [&[u16]; 24] = [
    &[],
    &[],
    &[],
    &[],
    &[],
    &[],
    &[],
    &[60],
    &[55, 95],
    &[0, 4, 10, 22, 24, 32, 52, 53, 56, 61, 67, 85],
    &[14, 19, 20, 23, 28, 38, 65, 68, 84, 87, 96, 97, 110, 114],
    &[
        3, 5, 12, 21, 26, 30, 34, 43, 62, 64, 66, 70, 74, 103, 105, 112,
    ],
    &[
        1, 2, 31, 33, 36, 46, 47, 48, 54, 69, 71, 75, 77, 81, 98, 99, 101, 106, 108,
    ],
    &[78, 79, 104, 115, 120],
    &[18, 35, 42, 45, 86, 90, 131, 132],
    &[8, 9, 16, 27, 37, 40, 57, 83, 92, 126, 128, 130],
    &[6, 15, 25, 59, 73, 76, 80, 89, 91, 102, 116, 123, 127, 129],
    &[11, 29, 39, 63, 72, 93, 94, 111, 118, 121],
    &[7, 113, 119, 124],
    &[44, 49, 50, 51, 135],
    &[13, 58, 82, 100, 107, 109, 133],
    &[88, 117, 122, 125],
    &[41, 134],
    &[17],
];

/// The row whose call has this name, if there is one.
///
/// A name that begins like no call's is told by its prefix, and any other is compared with the calls of
/// its length alone.
pub fn row_of(name: &str) -> Option<RowId>
    ensures row { result ≡ row_named name.now }
    ensures in_table { IfSome result IsRow }
{
    let text = name.as_bytes();
    if begins_like_a_call(text) {
        first_named(of_length(text.len()), text).map(RowId)
    } else {
        None
    }
}

/// Whether a name begins as those of the table do.
fn begins_like_a_call(text: &[u8]) -> bool
    ensures { result ≡ begins_like_one text.now }
{
    text.starts_with(b"ch".as_slice()) || text.starts_with(b"CH_".as_slice())
}

/// The first of these rows whose call has this name.
fn first_named(rows: &[u16], text: &[u8]) -> Option<u16>
    ensures { result ≡ find (λ row. names row text.now) rows.now }
{
    rows.iter().copied().find(|row| is_named(*row, text))
}

/// Whether the call of a row has this name.
fn is_named(row: u16, text: &[u8]) -> bool
    ensures { result ≡ names row text.now }
{
    calls()
        .get(usize::from(row))
        .is_some_and(|call| call.name.as_bytes() == text)
}

/// The rows whose names have this length.
fn of_length(length: usize) -> &'static [u16]
    ensures { FindsRowsOf length result.now }
{
    match by_length().get(length) {
        Some(rows) => rows,
        None => &[],
    }
}

/// For each length, the rows whose names have it.
fn by_length() -> &'static [&'static [u16]]
    ensures { FindsRows (map (λ rows. rows.now) result.now) }
{
    &BY_LENGTH
}
