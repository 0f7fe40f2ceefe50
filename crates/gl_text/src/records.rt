//! Blocks of CSV records, as the elements that they stand for.

ghost use Rattle.std.specs.Prelude.{◌≡◌, ◌++◌, ◌∷◌, [], IsUtf8, IfOk, OnOk};
ghost use Rattle.csv.specs.Records.{fields_of, AllText};
ghost use Rattle.spec_plan_texts.specs.Block.{BlockHas, IsRow, IsField};

use csv::{ByteRecord, ReaderBuilder};
use gl_syntax::decimal_number;
use gl_value::{Text, TextFault, Value, Values};
use std::alloc::{AllocError, Global};

/// The elements of a block: for each of its records the list of the fields, which are numbers where they spell one, and
/// texts else. Records are those of `csv` in its default dialect, of any number of fields and without a header record.
/// It takes memory in proportion to the block's bytes; an error of `csv` can only be want of it.
pub fn block_rows(alloc: Global, block: &[u8]) -> Result<Values, AllocError>
    requires { IsUtf8 block.now }
    ensures { IfOk result (λ rows. BlockHas block.now rows) }
{
    let reader = ReaderBuilder::new()
        .has_headers(false)
        .flexible(true)
        .from_reader(alloc, block);
    let mut rows = Values::new(alloc);
    for entry in reader.into_byte_records() {
        let Ok(entry) = entry else {
            return Err(AllocError);
        };
        push(&mut rows, row(alloc, &entry)?)?;
    }
    Ok(rows)
}

#[tactic(auto, using(crate::proofs::RecordRows::fields_more, crate::proofs::RecordRows::no_field, crate::proofs::RecordRows::all_fields, crate::proofs::RecordRows::field_text))]
// The element of a record.
fn row(alloc: Global, entry: &ByteRecord) -> Result<Value, AllocError>
    requires { AllText (fields_of entry.now) }
    ensures { IfOk result (λ row. IsRow (fields_of entry.now) row) }
{
    let mut values = Values::new(alloc);
    for i in 0..entry.len() {
        if let Some(field) = entry.get(i) {
            push(&mut values, value(alloc, field)?)?;
        }
    }
    Ok(Value::items(values))
}

#[tactic(auto, using(crate::proofs::RecordRows::number_field, crate::proofs::RecordRows::text_field))]
// The value of a field.
fn value(alloc: Global, field: &[u8]) -> Result<Value, AllocError>
    requires { IsUtf8 field.now }
    ensures { IfOk result (λ v. IsField field.now v) }
{
    match decimal_number(field) {
        Some(n) => Ok(Value::num(n)),
        None => Ok(Value::text(text(alloc, field)?)),
    }
}

fn text(alloc: Global, field: &[u8]) -> Result<Text, AllocError>
    requires { IsUtf8 field.now }
    ensures { IfOk result (λ t. t ≡ field.now) }
{
    match Text::from_utf8(alloc, field) {
        Ok(text) => Ok(text),
        Err(TextFault::NotUtf8 { .. }) => unreachable!(),
        Err(TextFault::Memory) => Err(AllocError),
    }
}

fn push(values: &mut Values, value: Value) -> Result<(), AllocError>
    ensures { OnOk result (values.new ≡ values.old ++ value ∷ []) }
{
    match values.push(value) {
        Ok(()) => Ok(()),
        Err(_) => Err(AllocError),
    }
}
