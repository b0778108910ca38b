//! Laws of headers. Each stands as the contract of a function here; what the functions do counts for nothing.
ghost use Rattle.std.specs.Prelude.{ℕ, ◌^◌, ◌<◌, map};
ghost use Rattle.std.specs.List.{All};
ghost use Rattle.columns.specs.Telling.{field_read, buffer_read};
ghost use Rattle.frames.specs.Headers.{described};
ghost use Rattle.frames.specs.Numbers.{NumbersTell, Spellable, field_numbers, buffer_numbers};

use crate::form::Description;
use columns::{BufferEntry, FieldRecord};

/// Different descriptions have different numbers in 8 bytes each.
pub fn numbers_tell_stands()
    ensures { NumbersTell }
{}

/// 8 bytes hold every number of a description.
pub fn description_is_spellable(description: &Description)
    ensures { Spellable (described description.now) }
{
    // A proof knows that a number fits its type once it is read.
    let _numbers = (description.id, description.rows, description.body_len);
    fields_fit(description.fields);
    buffers_fit(description.buffers);
}

fn fields_fit(fields: &[FieldRecord])
    ensures { All (λ n. n < 2 ^ 64) (field_numbers (map field_read fields.now)) }
{
    for field in fields {
        let _numbers = (field.rows, field.nulls);
    }
}

fn buffers_fit(buffers: &[BufferEntry])
    ensures { All (λ n. n < 2 ^ 64) (buffer_numbers (map buffer_read buffers.now)) }
{
    for entry in buffers {
        let _numbers = (entry.buffer.offset, entry.buffer.length);
    }
}
