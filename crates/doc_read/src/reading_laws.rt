//! What holds of each document that is read.

ghost use Rattle.doc_read.specs.Documents.{ReadsDocuments};

/// What is read of a text keeps what every document keeps.
pub fn reads_documents()
    ensures { ReadsDocuments }
{}
