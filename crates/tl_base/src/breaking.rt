//! Where a line of a paragraph may end.

/// Where a line of a paragraph may end.
#[derive(Clone, Copy, Debug, PartialEq, Eq)]
pub enum Breaking {
    /// Only between two words, where white space stands.
    Words,
    /// Also inside a word that is wider than so many columns: after a mark in it, and in a part that
    /// is wider still between any two grapheme clusters (Unicode Standard Annex #29). With 0 that is
    /// inside every word, between any two of its clusters.
    Wider(u32),
}
