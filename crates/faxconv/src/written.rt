//! What a run has written.

use faxconv_out::Document;

/// What a run has written.
#[derive(Drop)]
pub(crate) enum Written<'a> {
    /// So many pictures.
    Pictures(u64),
    /// Pages of a document that isn't finished.
    Document(Document<'a>),
    /// A document that can't be written.
    Failed,
}
