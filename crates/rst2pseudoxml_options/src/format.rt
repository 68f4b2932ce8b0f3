//! The formats in which a document is printed.

/// How a document is printed.
#[derive(Clone, Copy, Debug, PartialEq, Eq)]
pub enum Format {
    /// As indented pseudo-XML.
    PseudoXml,
    /// As JSON.
    Json,
}
