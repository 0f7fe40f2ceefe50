//! Names, as they stand in lines.

use gl_value::{Items, Name};

/// A name in a line. The column is that of its first byte, in bytes from 1 on; it says nothing of what the line means.
#[derive(Drop)]
pub struct Named {
    pub name: Name,
    pub column: u64,
}

/// Several names of a line, in their order.
pub type NamedList = Items<Named>;
