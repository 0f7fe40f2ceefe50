//! Names.

ghost use Rattle.std.specs.Prelude.{◌≡◌, ◌++◌, OnOk};
ghost use Rattle.spec_lines.specs.Spelled.{spelled_names, spelled_may, spelled_others, spelled_after};
ghost use Rattle.gl_line_writer.specs.Pieces.{spaced_name, name_after_comma};

use gl_lines::Named;
use gl_syntax::{Bytes, Memory};

pub(crate) fn bytes_of(named: &Named) -> &[u8]
    ensures { result.now ≡ named.now.name }
{
    named.name.text().bytes()
}

pub(crate) fn add_name(named: &Named, out: &mut Bytes) -> Result<(), Memory>
    ensures { OnOk result (out.new ≡ out.old ++ named.now.name) }
{
    out.push_all(bytes_of(named))
}

/// Adds the names, a space before each. Where memory runs out part of it may be added.
#[tactic(auto, using(crate::proofs::Pieces::names_are))]
pub fn add_names(names: &[Named], out: &mut Bytes) -> Result<(), Memory>
    ensures { OnOk result (out.new ≡ out.old ++ spelled_names names.now) }
{
    'names: for named in names {
        add_spaced(named, out)?;
    }
    Ok(())
}

fn add_spaced(named: &Named, out: &mut Bytes) -> Result<(), Memory>
    ensures { OnOk result (out.new ≡ out.old ++ spaced_name named.now) }
{
    out.push_all(b" ")?;
    add_name(named, out)
}

/// Adds the lists that may become members, after their word; nothing where there are none.
pub(crate) fn add_may(may: &[Named], out: &mut Bytes) -> Result<(), Memory>
    ensures { OnOk result (out.new ≡ out.old ++ spelled_may may.now) }
{
    match may {
        [] => Ok(()),
        [_, ..] => {
            out.push_all(b" may")?;
            add_names(may, out)
        }
    }
}

/// Adds the listeners that are told before, after their word; nothing where there are none.
pub(crate) fn add_after(after: &[Named], out: &mut Bytes) -> Result<(), Memory>
    ensures { OnOk result (out.new ≡ out.old ++ spelled_after after.now) }
{
    match after {
        [] => Ok(()),
        [first, others @ ..] => {
            out.push_all(b" after ")?;
            add_name(first, out)?;
            add_others(others, out)
        }
    }
}

#[tactic(auto, using(crate::proofs::Pieces::others_are))]
fn add_others(names: &[Named], out: &mut Bytes) -> Result<(), Memory>
    ensures { OnOk result (out.new ≡ out.old ++ spelled_others names.now) }
{
    'names: for named in names {
        add_after_comma(named, out)?;
    }
    Ok(())
}

fn add_after_comma(named: &Named, out: &mut Bytes) -> Result<(), Memory>
    ensures { OnOk result (out.new ≡ out.old ++ name_after_comma named.now) }
{
    out.push_all(b",")?;
    add_name(named, out)
}
