//! The queues of proxies.

ghost use Rattle.std.specs.Prelude.{◌≡◌, OnOk};
ghost use Rattle.gl_graph.specs.Nodes.{own_of};
ghost use Rattle.gl_graph.specs.Queues.{IsProxy, LeadsOn, CanQueue, with_one_queued, IsProxyAt, LeadsOnAt, CanQueueIn, IsReserved, IsReservedAt, IsQueuedAt};

use crate::keeps::Keeps;
use crate::node::Node;
use gl_kernels::Delta;
use std::alloc::AllocError;

/// Makes room for one more delta in the queue of the proxy at a place.
pub(crate) fn reserve_at(nodes: &mut Vec<Node>, position: usize) -> Result<(), AllocError>
    requires { IsProxyAt position nodes.old.items }
    ensures ok { OnOk result (CanQueueIn position nodes.new.items) }
    ensures reserved { IsReservedAt position nodes.old.items nodes.new.items }
{
    reserve(&mut nodes[position].keeps)
}

/// Queues a delta for the proxy at a place. It takes no memory, but room that `reserve_at` made.
pub(crate) fn queue_at(nodes: &mut Vec<Node>, position: usize, d: Delta)
    requires leads { LeadsOnAt d.pieces position nodes.old.items }
    requires reserved { CanQueueIn position nodes.old.items }
    ensures { IsQueuedAt d.pieces position nodes.old.items nodes.new.items }
{
    queue(&mut nodes[position].keeps, d);
}

fn reserve(keeps: &mut Keeps) -> Result<(), AllocError>
    requires { IsProxy (own_of keeps.old) }
    ensures ok { OnOk result (CanQueue keeps.new) }
    ensures reserved { IsReserved keeps.old keeps.new }
{
    match keeps {
        Keeps::Proxy { input: _, proxy } => proxy.reserve(),
        _ => unreachable!(),
    }
}

fn queue(keeps: &mut Keeps, d: Delta)
    requires leads { LeadsOn d.pieces (own_of keeps.old) }
    requires reserved { CanQueue keeps.old }
    ensures { own_of keeps.new ≡ with_one_queued d.pieces (own_of keeps.old) }
{
    match keeps {
        Keeps::Proxy { input: _, proxy } => proxy.queue(d),
        _ => unreachable!(),
    }
}
