//! Laws about the definitions, each the contract of a function that does nothing.
ghost use Rattle.ck_declaration_readers.specs.Laws.{ReadsBlockDeclarations};

/// The reader of declarations in blocks by its parts is the grammar's own.
pub fn reads_block_declarations()
    ensures { ReadsBlockDeclarations }
{}
