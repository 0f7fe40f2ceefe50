//! What becomes of a list in its turn.

use crate::keeps::KeepsUndo;
use gl_kernels::Delta;

/// What became of a list: it is as it was; or it keeps something else and shows what it did; or it tells a delta. Either
/// change has its way back.
#[derive(Drop)]
pub(crate) enum Turned {
    Stays,
    Silent(KeepsUndo),
    Told(Delta, KeepsUndo),
}
