//! The names of a kit's symbols by number, and what its symbols say of each name. A name is looked for once a symbol; all that
//! comes after goes by number.
#![tactic(auto)]

mod commons;
mod edge_lines;
mod edges;
mod facts;
mod index;
mod noted;
mod numbers;
mod own;
mod removed;

pub use commons::{Commons, common_pieces};
pub use edge_lines::edge_names;
pub use edges::{EdgeName, definitions, edge_targets, entry_of};
pub use facts::{Common, NameFacts, SymbolAt};
pub use index::NameIndex;
pub use noted::{Notes, PieceTable, name_text, note_symbols};
pub use numbers::{Numbering, number_names, symbol_name};
pub use own::{own_definitions, symbol_place};
pub use removed::{RemovedTable, removed_sections};
