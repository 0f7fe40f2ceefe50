/// Who makes an entry: the writer or the proxy of that number, counted from 0 in the order of
/// their lines.
#[derive(Clone, Copy, Debug, PartialEq, Eq)]
pub enum Actor {
    /// A writer, which takes its next section.
    Writer(u32),
    /// A proxy, which takes the first change of its queue.
    Proxy(u32),
}

/// A watcher of the workers of a run, by which a test can hold one back. It tells nothing: no
/// clause rests on one.
///
/// A worker calls `before` and `after` round each of its attempts at an entry, outside the lock,
/// with its actor and the number of attempts that it made before.
pub trait Gate: Sync {
    /// The actor is about to make its attempt `nth`, counted from 0.
    fn before(&self, actor: Actor, nth: u64);

    /// The actor has made its attempt `nth`, whatever came of it.
    fn after(&self, actor: Actor, nth: u64);
}

/// The gate that does nothing.
#[derive(Clone, Copy, Debug, Default)]
pub struct NoGate;

impl Gate for NoGate {
    fn before(&self, _actor: Actor, _nth: u64) {}

    fn after(&self, _actor: Actor, _nth: u64) {}
}
