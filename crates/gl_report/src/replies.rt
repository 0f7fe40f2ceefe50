//! What the commands of an entry were answered.

ghost use Rattle.std.specs.Prelude.{◌≡◌, ◌++◌, OnOk, codes, decimal};
ghost use Rattle.spec_reports.specs.ValueText.{spelled_list};
ghost use Rattle.spec_reports.specs.Report.{list_name, reply_text, reply_lines};

use gl_lines::{ListDecl, Reply};
use gl_syntax::{add_number, add_value};
use gl_value::{Bytes, Memory, Value, Values};
use itoa::Buffer;

/// Adds a line for each reply of an entry, which are counted from 0 on.
pub fn write_replies(lists: &[ListDecl], replies: &[Reply], out: &mut Bytes) -> Result<(), Memory>
    ensures { OnOk result (out.new ≡ out.old ++ reply_lines lists.now 0 replies.now) }
{
    for (number, reply) in replies.iter().enumerate() {
        out.push_all(b"reply ")?;
        add_number(number as u64, out)?;
        out.push_all(b" ")?;
        write_reply(lists, reply, out)?;
        out.push_all(b"\n")?;
    }
    Ok(())
}

fn write_reply(lists: &[ListDecl], reply: &Reply, out: &mut Bytes) -> Result<(), Memory>
    ensures { OnOk result (out.new ≡ out.old ++ reply_text lists.now reply.now) }
{
    match reply {
        Reply::Done => out.push_all(b"ok"),
        Reply::Shown(values) => write_values(values, out),
        Reply::OutOfRange { index, len } => write_out_of_range(*index, *len, out),
        Reply::TooLong { list, len } => write_too_long(lists, *list, *len, out),
        Reply::AlreadyFrozen => out.push_all(b"already-frozen"),
        Reply::NotFrozen => out.push_all(b"not-frozen"),
        Reply::NotOpen => out.push_all(b"not-open"),
    }
}

// What a list shows. The values are shared while they are written.
fn write_values(values: &Values, out: &mut Bytes) -> Result<(), Memory>
    ensures { OnOk result (out.new ≡ out.old ++ (codes "shown " ++ spelled_list values.now)) }
{
    out.push_all(b"shown ")?;
    let value = Value::items(values.copy()?);
    add_value(&value, out)
}

fn write_out_of_range(index: u64, len: u64, out: &mut Bytes) -> Result<(), Memory>
    ensures { OnOk result
        (out.new ≡ out.old ++ (codes "out-of-range " ++ decimal index ++ codes " " ++ decimal len)) }
{
    out.push_all(b"out-of-range ")?;
    add_number(index, out)?;
    out.push_all(b" ")?;
    add_number(len, out)?;
    Ok(())
}

fn write_too_long(lists: &[ListDecl], list: u32, len: u128, out: &mut Bytes) -> Result<(), Memory>
    ensures { OnOk result
        (out.new ≡ out.old ++ (codes "too-long " ++ list_name lists.now list ++ codes " " ++ decimal len)) }
{
    out.push_all(b"too-long ")?;
    write_list_name(lists, list, out)?;
    out.push_all(b" ")?;
    add_length(len, out)
}

fn write_list_name(lists: &[ListDecl], list: u32, out: &mut Bytes) -> Result<(), Memory>
    ensures { OnOk result (out.new ≡ out.old ++ list_name lists.now list) }
{
    match lists.get(list as usize) {
        Some(decl) => out.push_all(decl.name.text().bytes()),
        None => Ok(()),
    }
}

/// Adds the length that a list would have, or the sum of lengths, in decimal.
pub(crate) fn add_length(len: u128, out: &mut Bytes) -> Result<(), Memory>
    ensures { OnOk result (out.new ≡ out.old ++ decimal len) }
{
    let mut buffer = Buffer::new();
    out.push_all(buffer.format(len).as_bytes())
}
