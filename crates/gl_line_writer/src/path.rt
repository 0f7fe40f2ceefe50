//! Paths, orders by keys, and the bounds of ranges.

ghost use Rattle.std.specs.Prelude.{◌≡◌, ◌++◌, codes, decimal, OnOk};
ghost use Rattle.spec_syntax.specs.Spelled.{spelled_steps, spelled_path, spelled_key, spelled_keys, spelled_order, spelled_bounds};
ghost use Rattle.gl_line_writer.specs.Pieces.{step_after_dot, key_after_comma};

use gl_lang::{Bounds, Key, Order, Path};
use gl_syntax::{Bytes, Memory, add_number};

/// Adds the path: a dot before each index, and a dot alone where there is none. Where memory runs out part of it may be
/// added.
pub fn add_path(path: &Path, out: &mut Bytes) -> Result<(), Memory>
    ensures { OnOk result (out.new ≡ out.old ++ spelled_path path.now) }
{
    let steps = path.as_slice();
    match steps {
        [] => out.push_all(b"."),
        [_, ..] => add_steps(steps, out),
    }
}

#[tactic(auto, using(crate::proofs::Pieces::steps_are))]
fn add_steps(steps: &[u16], out: &mut Bytes) -> Result<(), Memory>
    ensures { OnOk result (out.new ≡ out.old ++ spelled_steps steps.now) }
{
    'steps: for step in steps {
        add_step(*step, out)?;
    }
    Ok(())
}

fn add_step(step: u16, out: &mut Bytes) -> Result<(), Memory>
    ensures { OnOk result (out.new ≡ out.old ++ step_after_dot step) }
{
    out.push_all(b".")?;
    add_number(u64::from(step), out)
}

/// Adds the keys of the order, a comma and a space between every two. Where memory runs out part of it may be added.
pub fn add_order(order: &Order, out: &mut Bytes) -> Result<(), Memory>
    ensures { OnOk result (out.new ≡ out.old ++ spelled_order order.now) }
{
    match order.keys.as_slice() {
        [] => Ok(()),
        [first, others @ ..] => {
            add_key(first, out)?;
            add_keys(others, out)
        }
    }
}

#[tactic(auto, using(crate::proofs::Pieces::keys_are))]
fn add_keys(keys: &[Key], out: &mut Bytes) -> Result<(), Memory>
    ensures { OnOk result (out.new ≡ out.old ++ spelled_keys keys.now) }
{
    'keys: for key in keys {
        add_key_after_comma(key, out)?;
    }
    Ok(())
}

fn add_key_after_comma(key: &Key, out: &mut Bytes) -> Result<(), Memory>
    ensures { OnOk result (out.new ≡ out.old ++ key_after_comma key.now) }
{
    out.push_all(b", ")?;
    add_key(key, out)
}

fn add_key(key: &Key, out: &mut Bytes) -> Result<(), Memory>
    ensures { OnOk result (out.new ≡ out.old ++ spelled_key key.now) }
{
    if key.down {
        out.push_all(b"desc ")?;
        return add_path(&key.path, out);
    }
    add_path(&key.path, out)
}

/// Adds the bounds: the word of their end and the two numbers. Where memory runs out part of it may be added.
pub fn add_bounds(bounds: Bounds, out: &mut Bytes) -> Result<(), Memory>
    ensures { OnOk result (out.new ≡ out.old ++ spelled_bounds bounds) }
{
    match bounds {
        Bounds::Head(start, end) => add_between(b"head ", start, end, out),
        Bounds::Tail(start, end) => add_between(b"tail ", start, end, out),
        Bounds::Middle(start, end) => add_between(b"middle ", start, end, out),
    }
}

fn add_between(word: &[u8], start: u32, end: u32, out: &mut Bytes) -> Result<(), Memory>
    ensures { OnOk result
        (out.new ≡ out.old ++ (word.now ++ decimal start ++ codes " " ++ decimal end)) }
{
    out.push_all(word)?;
    add_number(u64::from(start), out)?;
    out.push_all(b" ")?;
    add_number(u64::from(end), out)
}
