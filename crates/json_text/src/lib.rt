//! What the readers and writers of JSON share: a document as bytes, the members of an object, lists
//! of texts, and the law that the compact text of a tree reads back as that tree.
#![tactic(auto)]

mod document;
mod each;
mod laws;
mod members;
mod texts;

pub use document::{DocumentFault, read_document};
pub use each::{ReadFault, ReadsJson, list_at, read_each, short_array, short_list, where_formed};
pub use laws::compact_text_reads_back;
pub use members::{date_of, put_text, switch, text_at, whole_number_at};
pub use texts::{TextForm, texts_at, texts_of_items, texts_value};
