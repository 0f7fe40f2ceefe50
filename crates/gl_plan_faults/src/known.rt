//! What is known of lines before their names are judged.

use crate::listed::Listed;
use crate::names::NameTable;
use gl_lines::NumberedLine;

/// Lines, with tables of what they declare.
#[derive(Drop)]
pub(crate) struct Known<'a> {
    pub(crate) lines: &'a [NumberedLine],
    pub(crate) names: NameTable,
    pub(crate) listeners: NameTable,
    /// The lists, by number.
    pub(crate) lists: Vec<Listed>,
    /// Whether each list is a proxy or depends on one.
    pub(crate) over_proxy: Vec<bool>,
}
