//! Descriptions as numbers: a header form that needs no memory of its own.
ghost use Rattle.std.specs.Prelude.{◌≡◌, ℕ, ◌+◌, ◌*◌, ◌≤◌, length, map, take, drop, ◌++◌};
ghost use Rattle.layout.specs.Numbers.{le, le_all};
ghost use Rattle.columns.specs.Telling.{number, field_read, buffer_read, kind_read};
ghost use Rattle.frames.specs.Headers.{described};
ghost use Rattle.frames.specs.Numbers.{kind_number, field_numbers, buffer_numbers, number_bytes};

use crate::form::{Description, HeaderForm};
use columns::{BufferEntry, FieldRecord, MessageKind};
use layout::Width;

// How many bytes a number has.
const NUMBER: usize = 8;

// A record has two numbers.
const RECORD: usize = 2 * NUMBER;

// The kind, the id, the rows, the body's length and the count of the fields.
const HEAD: usize = 5 * NUMBER;

// No header is longer.
const LIMIT: usize = 65_536;

/// Has a description itself as the header: its numbers in 8 bytes each, the lowest first. These are the kind (0 a batch, 1 a
/// dictionary, 2 a delta), the id, the rows, the body's length, the count of the fields, the rows and the nulls of each, the
/// count of the buffers, and the offset and the length of each.
#[derive(Clone, Copy, Debug, Default)]
pub struct Numbers;

impl HeaderForm for Numbers {
    ghost header = { λ form ordinal message. number_bytes message };

    fn size(&self, _ordinal: u64, message: &Description) -> Option<usize> {
        let records = message.fields.len().saturating_add(message.buffers.len());
        let len = records.saturating_mul(RECORD).saturating_add(HEAD + NUMBER);
        if len <= LIMIT { Some(len) } else { None }
    }

    fn write(&self, ordinal: u64, message: &Description, memory: &mut [u8]) {
        if let Some(len) = self.size(ordinal, message)
            && len <= memory.len()
        {
            write_description(message, &mut memory[..len]);
        }
    }
}

// Writes a description over memory of its length.
fn write_description(message: &Description, out: &mut [u8])
    requires { length out.now ≡ 48 + 16 * (length message.now.fields.now + length message.now.buffers.now) }
    ensures { out.new ≡ number_bytes (described message.now) }
{
    put(out, 0, number_of(message.kind));
    put(out, NUMBER, message.id);
    put(out, 2 * NUMBER, message.rows);
    put(out, 3 * NUMBER, message.body_len);
    put(out, 4 * NUMBER, message.fields.len() as u64);
    let fields_end = HEAD + message.fields.len() * RECORD;
    write_fields(message.fields, &mut out[HEAD..fields_end]);
    put(out, fields_end, message.buffers.len() as u64);
    write_buffers(message.buffers, &mut out[fields_end + NUMBER..]);
}

fn number_of(kind: MessageKind) -> u64
    ensures { result ≡ kind_number (kind_read kind) }
{
    match kind {
        MessageKind::Batch => 0,
        MessageKind::Dictionary => 1,
        MessageKind::Delta => 2,
    }
}

// What is below 0 is read as 0.
fn natural(signed: i64) -> u64
    ensures { result ≡ number signed }
{
    signed.max(0).cast_unsigned()
}

// Puts a number at a place; no other byte changes.
fn put(out: &mut [u8], at: usize, number: u64)
    requires { at + 8 ≤ length out.old }
    ensures { out.new ≡ take at out.old ++ (le 8 number ++ drop (at + 8) out.old) }
{
    layout::write(&mut out[at..], Width::Eight, number);
}

fn write_fields(fields: &[FieldRecord], out: &mut [u8])
    requires { length out.now ≡ 16 * length fields.now }
    ensures { out.new ≡ le_all 8 (field_numbers (map field_read fields.now)) }
{
    for (i, field) in fields.iter().enumerate() {
        put(out, i * RECORD, natural(field.rows));
        put(out, i * RECORD + NUMBER, natural(field.nulls));
    }
}

fn write_buffers(buffers: &[BufferEntry], out: &mut [u8])
    requires { length out.now ≡ 16 * length buffers.now }
    ensures { out.new ≡ le_all 8 (buffer_numbers (map buffer_read buffers.now)) }
{
    for (i, entry) in buffers.iter().enumerate() {
        put(out, i * RECORD, natural(entry.buffer.offset));
        put(out, i * RECORD + NUMBER, natural(entry.buffer.length));
    }
}
