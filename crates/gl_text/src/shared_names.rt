//! Names that stand in several lines, in memory that these lines share.

ghost use Rattle.std.specs.Prelude.{◌≡◌};

use gl_lines::{Line, Named};
use gl_value::Name;
use std::alloc::{AllocError, Global};
use std::collections::BTreeSet;

// As many names are kept as a plan may have lists.
const MOST_NAMES: usize = 256;

/// The names of lists that lines were about, each once.
#[derive(Drop)]
pub(crate) struct SharedNames {
    names: BTreeSet<Name>,
}

impl SharedNames {
    /// No names, which takes no memory.
    pub(crate) fn new(alloc: Global) -> SharedNames {
        SharedNames {
            names: BTreeSet::new(alloc),
        }
    }

    /// Has the line share the name of the list that it is about with earlier lines. It takes memory for a name that is
    /// new, and finds others in logarithmic time.
    pub(crate) fn share(&mut self, line: &mut Line) -> Result<(), AllocError>
        ensures { line.new ≡ line.old }
    {
        match line {
            Line::Row { list, .. } => self.share_name(list),
            Line::Csv { list } => self.share_name(list),
            Line::Add { list, .. } => self.share_name(list),
            Line::AddAll { list, .. } => self.share_name(list),
            Line::Insert { list, .. } => self.share_name(list),
            Line::Set { list, .. } => self.share_name(list),
            Line::Remove { list, .. } => self.share_name(list),
            Line::Clear { list } => self.share_name(list),
            Line::Match { list, .. } => self.share_name(list),
            Line::Order { list, .. } => self.share_name(list),
            Line::Bounds { list, .. } => self.share_name(list),
            Line::Apply { list, .. } => self.share_name(list),
            Line::Attach { list, .. } => self.share_name(list),
            Line::Detach { list, .. } => self.share_name(list),
            Line::Begin { list } => self.share_name(list),
            Line::Commit { list } => self.share_name(list),
            Line::Rollback { list } => self.share_name(list),
            Line::Freeze { list } => self.share_name(list),
            Line::Thaw { list } => self.share_name(list),
            Line::Show { list } => self.share_name(list),
            _ => Ok(()),
        }
    }

    fn share_name(&mut self, named: &mut Named) -> Result<(), AllocError>
        ensures { named.new ≡ named.old }
    {
        if let Some(name) = self.names.get(&named.name) {
            named.name = name.copy()?;
            return Ok(());
        }
        if self.names.len() < MOST_NAMES {
            self.names.insert(named.name.copy()?)?;
        }
        Ok(())
    }
}
