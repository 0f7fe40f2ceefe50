//! The lists that follow one input, of every kind, for what holds lists of several kinds.
#![tactic(auto)]

pub use gl_collection::{Collection, CollectionUndo, KernelFault, Kids};
pub use gl_filter::{Filter, FilterUndo, kind};
pub use gl_function::{Function, FunctionUndo};
pub use gl_grouping::{Grouping, GroupingUndo};
pub use gl_kernel::{Delta, Deltas, Find, Kernel};
pub use gl_range::{RangeKernel, RangeUndo};
pub use gl_sorted::{Order, Sorted, SortedUndo};
pub use gl_unique::{Unique, UniqueUndo};
