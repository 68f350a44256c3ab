//! Places in files, and the numbers by which functions, points, slots and rows go.

/// A run of bytes of a file: the bytes from `start` up to `end`, which isn't part of it.
///
/// `file` counts the project's files from 0, in byte order of their names. `start` and `end` count
/// bytes from the file's first, which is 0.
#[derive(Clone, Copy, Debug, PartialEq, Eq)]
pub struct Span {
    pub file: u32,
    pub start: u32,
    pub end: u32,
}

/// The number of a function with a body or of a synthetic function, from 0.
#[derive(Clone, Copy, Debug, PartialEq, Eq)]
pub struct FnId(pub u32);

/// The number of a point of the flow graphs, from 0.
#[derive(Clone, Copy, Debug, PartialEq, Eq)]
pub struct PointId(pub u32);

/// The number of a slot, which is a place that can hold a function's address, from 0.
#[derive(Clone, Copy, Debug, PartialEq, Eq)]
pub struct SlotId(pub u32);

/// The number of a row of the kernel's call table, from 0.
#[derive(Clone, Copy, Debug, PartialEq, Eq)]
pub struct RowId(pub u16);
