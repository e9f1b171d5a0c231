//! Fields as values, and values as fields.

ghost use Rattle.std.specs.Prelude.{◌≡◌, ◌++◌, ◌∷◌, [], IfOk, OnOk, MatchOption};
ghost use Rattle.cqa_value.specs.declared.value.Value.{Value as Cell};
ghost use Rattle.csv.specs.Records.{fields_of, partial_of};
ghost use Rattle.cqa_value.specs.Valid.{IsValidValue};
ghost use Rattle.csv_rows.specs.Blocks.{IsFieldOf};
ghost use Rattle.csv_rows.specs.Texts.{value_bytes};

use cqa_value::{Fail, Kind, Name, NoMemory, Value, read_int};
use csv::ByteRecord;
use itoa::Buffer;
use std::alloc::Global;

/// The value that a field gives a column of the kind. `None` where it gives none: the field of an int column is no
/// integer in range, or that of a text column isn't UTF-8 or has more than 1,024 bytes.
///
/// # Errors
///
/// `NoMemory` where memory is refused.
pub fn value_of(alloc: Global, kind: Kind, field: &[u8]) -> Result<Option<Value>, NoMemory>
    ensures { IfOk result (λ found. MatchOption found ((value : Cell) → IsFieldOf kind field.now value → ⊥) (λ value. IsFieldOf kind field.now value)) }
{
    match kind {
        Kind::Int => Ok(read_int(field).map(Value::Int)),
        Kind::Text => match Name::from_bytes(alloc, field) {
            Ok(name) => Ok(Some(Value::Text(name))),
            Err(Fail::NoMemory) => Err(NoMemory),
            Err(Fail::Refused(_)) => Ok(None),
        },
    }
}

/// Appends a value to a record: an integer in decimal, a text by its bytes.
///
/// # Errors
///
/// `NoMemory` where memory is refused.
pub fn push_value(value: &Value, fields: &mut ByteRecord) -> Result<(), NoMemory>
    requires { partial_of fields.old ≡ [] }
    ensures fields { OnOk result (fields_of fields.new ≡ fields_of fields.old ++ value_bytes value.now ∷ []) }
    ensures whole { OnOk result (partial_of fields.new ≡ []) }
    ensures stored { OnOk result (IsValidValue value.now) }
{
    match value {
        Value::Int(number) => {
            let mut buffer = Buffer::new();
            fields.push_field(buffer.format(*number).as_bytes())?;
        }
        Value::Text(name) => fields.push_field(name.as_str().as_bytes())?,
    }
    Ok(())
}
