//! Lists by number, with what they depend on.

use crate::needs::Needs;
use spec_plans::ListClass;

/// A list, as far as the names of lines go.
#[derive(Drop)]
pub(crate) struct Listed {
    pub(crate) class: ListClass,
    /// The numbers of the lists that it depends on, each once.
    pub(crate) needs: Needs,
}
