// Finding the entry at which the measure of the entries so far passes a number.
ghost use Rattle.std.specs.Prelude.{IsTrue};
ghost use Rattle.gl_ranktree.specs.Tree.{Tree, inorder, tree_sum};
ghost use Rattle.gl_ranktree.specs.Edits.{Stands};
ghost use Rattle.gl_ranktree.specs.Sought.{IsSought, SomeFitting};

use crate::measure::Measure;
use crate::node::{ABSENT, Node, read};
use crate::summary::Summary;

/// Where a search by a measure stopped.
#[derive(Clone, Copy)]
pub struct Sought<S> {
    /// The place of the entry, or the number of entries where none passes.
    pub position: usize,
    /// The sum of the entries before it.
    pub before: S,
    /// Its own summary, `None` where none passes.
    pub own: Option<S>,
}

// The first entry under a node with which the measure passes `k`.
pub(crate) fn seek<S: Summary, M: Measure<S>>(
    nodes: &[Node<S>],
    top: u32,
    by: M,
    k: usize,
) -> Sought<S>
    requires { SomeFitting S.sums nodes.now top }
    ensures { (t : Tree _) → Stands S.sums nodes.now top t
        → IsTrue (S.sums.fits (tree_sum S.sums t))
        → IsSought S.sums (M.measured by) (inorder t) k result.position result.before result.own }
{
    if top == ABSENT {
        return Sought {
            position: 0,
            before: S::zero(),
            own: None,
        };
    }
    let here = read(nodes, top);
    let left = read(nodes, here.left);
    if k < by.of(left.sum) {
        return seek(nodes, here.left, by, k);
    }
    let through = left.sum.plus(here.own);
    let reached = by.of(through);
    if k < reached {
        return Sought {
            position: left.size as usize,
            before: left.sum,
            own: Some(here.own),
        };
    }
    let rest = seek(nodes, here.right, by, k - reached);
    Sought {
        position: left.size as usize + 1 + rest.position,
        before: through.plus(rest.before),
        own: rest.own,
    }
}
