//! The files of a project.

/// A file of the project: its name, which ends in `.i`, and its bytes.
#[derive(Debug, Drop)]
pub struct SourceFile {
    pub name: String,
    pub bytes: Vec<u8>,
}
