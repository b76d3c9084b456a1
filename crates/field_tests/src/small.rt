//! A small library: what its graph is made of.
use kl_base::{Class, Range};
use kl_model::area::TEXT;
use kl_model::{DynName, Field, FieldAt, Piece, PieceId, Target};

/// A section of 64 bytes of text.
pub const PIECES: [Piece; 1] = [Piece {
    id: PieceId::Section {
        input: 0,
        section: 1,
    },
    class: Class::Text,
    area: TEXT,
    size: 64,
    align: 16,
    bytes: Range { at: 64, len: 64 },
}];

/// Rows of the place of an imported name.
macro_rules! names {
    ($($at:literal),*) => {
        [$(DynName {
            input: 0,
            name: Range { at: $at, len: 1 },
            exported: None,
            weak: false,
            visibility: 0,
            kind: 0,
            size: 0,
        }),*]
    };
}

/// Two imported names.
pub const NAMES: [DynName; 2] = names![130, 132];

/// Rows of relocation type, offset and target.
macro_rules! fields {
    ($($kind:literal $offset:literal $target:expr),*) => {
        [$(Field {
            from: FieldAt { input: 0, section: 2, index: 0 },
            piece: 0,
            offset: $offset,
            kind: $kind,
            addend: 0,
            target: $target,
        }),*]
    };
}

/// Fields of the types GOTPCREL 9, PLT32 4, REX_GOTPCRELX 42, PC32 2 and GOTPCRELX 41.
pub const FIELDS: [Field; 8] = fields![
    9 0 Target::Name(1),
    4 8 Target::Name(0),
    42 16 Target::Name(1),
    9 24 Target::Gone,
    2 32 Target::Place { piece: 0, offset: 8 },
    41 40 Target::Place { piece: 0, offset: 8 },
    4 48 Target::Name(0),
    4 56 Target::Zero
];
