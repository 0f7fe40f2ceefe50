//! The language of matchers, orders, functions and child models, and what they say of values. Deciding and comparing
//! take no memory and copy nothing.
#![tactic(auto)]

pub mod func;
pub mod kids;
pub mod matcher;
pub mod order;
pub mod path;

pub use func::{Func, FuncShape, Funcs};
pub use gl_value::Memory;
pub use kids::Kids;
pub use matcher::{Matcher, MatcherShape, Matchers};
pub use order::{Key, Keys, Order, key_classes};
pub use path::Path;
pub use spec_lang::{Bounds, EditKind, Test};
