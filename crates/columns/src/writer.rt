//! What is written of a message into lent memory.
ghost use Rattle.std.specs.Prelude.{◌≡◌, ◌+◌, ◌<◌, ◌≤◌, ◌⊎◌, true, [], ◌∷◌, ◌++◌, length};
ghost use Rattle.layout.specs.Kinds.{has_bitmap};
ghost use Rattle.layout.specs.Messages.{own_field, padding, bit_bytes};
ghost use Rattle.layout.specs.Numbers.{wide};
ghost use Rattle.layout.specs.Rules.{Is};
ghost use Rattle.layout.specs.Windows.{shown_in};
ghost use Rattle.recording.specs.NodeRefs.{numbers_of};
ghost use Rattle.recording.specs.Passing.{IsPassed, IsSmaller};
ghost use Rattle.recording.specs.Windows.{window_in, HasStrings, HasElements};
ghost use Rattle.dictionaries.specs.Batches.{column_windows};
ghost use Rattle.columns.specs.Bits.{bits_of};
ghost use Rattle.columns.specs.Buffers.{own_record, marks_in, slots_in, offsets_of, strings_of, validity_of, own_buffers, windows_below};
ghost use Rattle.columns.specs.Pieces.{made, field_record, pieces_in, pieces_side, fields_in, fields_side};
ghost use Rattle.columns.specs.Writing.{Sends, RoomFor, Encodes, RoomToEncode};

use crate::buffer::{Buffer, bit_slice};
use crate::offsets::{OffsetSizeTrait, get_byte_array_buffers, get_list_array_buffers};
use crate::record::{BufferEntry, BufferRecord, EncodedBuffer, FieldRecord};
use layout::{BitSlice, Kind};
use recording::{Columns, Window};

/// A message that is written: its field records, its buffer records, the work memory of its call, and how long its body is
/// so far.
#[derive(Drop)]
pub(crate) struct IpcMessageWriter<'a> {
    pub fields: &'a mut [FieldRecord],
    pub field_count: usize,
    pub buffers: &'a mut [BufferEntry],
    pub buffer_count: usize,
    pub work: &'a mut [u8],
    pub work_len: usize,
    pub offset: u64,
    pub alignment: usize,
}

impl IpcMessageWriter<'_> {
    /// A buffer after those so far.
    pub(crate) fn encode_sink_buffer(&mut self, buffer: Buffer)
        requires { RoomToEncode self.now buffer }
        ensures { Encodes self.old self.new buffer }
    {
        self.buffers[self.buffer_count] = BufferEntry {
            buffer: BufferRecord {
                offset: self.offset as i64,
                length: buffer.len as i64,
            },
            source: buffer.source,
        };
        self.buffer_count += 1;
        self.offset += buffer.len + pad_to_alignment(self.alignment, buffer.len);
    }

    /// All rows of columns, one column after another.
    pub(crate) fn write_columns(&mut self, columns: &Columns)
        requires { RoomFor (fields_side (column_windows columns.now)) (pieces_side (column_windows columns.now)) self.now }
        ensures { Sends (fields_side (column_windows columns.now)) (pieces_side (column_windows columns.now)) self.old self.new }
    {
        for window in columns.windows() {
            self.write_array_data(&window);
        }
    }

    /// A window, its node before those below it; of a Dictionary its keys alone.
    #[cycle(write)]
    pub(crate) fn write_array_data(&mut self, window: &Window)
        requires { RoomFor (fields_in (window_in window.now)) (pieces_in (window_in window.now)) self.now }
        ensures { Sends (fields_in (window_in window.now)) (pieces_in (window_in window.now)) self.old self.new }
    {
        let kind = window.node().kind();
        // Of many rows the count takes long, and two parts of a message need it.
        let nulls = window.null_count();
        self.push_node(window, nulls);
        self.write_validity(kind, window, nulls);
        self.write_contents(kind, window);
    }

    // What comes after its validity.
    #[cycle(write)]
    fn write_contents(&mut self, kind: Kind, window: &Window)
        requires kind { Is (numbers_of window.now.node) kind }
        requires room { RoomFor (fields_side (windows_below kind window.now))
            (own_buffers kind window.now ++ pieces_side (windows_below kind window.now)) self.now }
        ensures { Sends (fields_side (windows_below kind window.now))
            (own_buffers kind window.now ++ pieces_side (windows_below kind window.now)) self.old self.new }
    {
        match kind {
            Kind::Null => {}
            Kind::Boolean => self.write_bits(&window.bits()),
            Kind::Fixed | Kind::Dictionary => self.write_slots(window),
            Kind::Bytes32 => self.write_byte_arrays::<i32>(window),
            Kind::Bytes64 => self.write_byte_arrays::<i64>(window),
            Kind::List32 => {
                let child = self.write_list_offsets::<i32>(window);
                self.write_array_data(&child);
            }
            Kind::List64 => {
                let child = self.write_list_offsets::<i64>(window);
                self.write_array_data(&child);
            }
            Kind::Struct => self.write_children(window),
        }
    }

    // The children of a Struct, one after another.
    #[cycle(write)]
    fn write_children(&mut self, window: &Window)
        requires kind { Is (numbers_of window.now.node) Kind.Struct }
        requires room { RoomFor (fields_side (windows_below Kind.Struct window.now)) (pieces_side (windows_below Kind.Struct window.now)) self.now }
        ensures { Sends (fields_side (windows_below Kind.Struct window.now)) (pieces_side (windows_below Kind.Struct window.now)) self.old self.new }
    {
        for child in window.children() {
            self.write_array_data(&child);
        }
    }

    // The bits that are sent of these.
    fn write_bits(&mut self, bits: &BitSlice)
        requires { RoomFor [] (made (bit_bytes (bits_of bits.now)) ∷ []) self.now }
        ensures { Sends [] (made (bit_bytes (bits_of bits.now)) ∷ []) self.old self.new }
    {
        let buffer = bit_slice(bits, self.work, self.work_len);
        self.work_len += buffer.len as usize;
        self.encode_sink_buffer(buffer);
    }

    // Which rows are valid, of a kind that has a bitmap.
    fn write_validity(&mut self, kind: Kind, window: &Window, nulls: u64)
        requires kind { Is (numbers_of window.now.node) kind }
        requires nulls { nulls ≡ (own_field (shown_in (window_in window.now))).nulls }
        requires room { RoomFor [] (validity_of kind window.now) self.now }
        ensures { Sends [] (validity_of kind window.now) self.old self.new }
    {
        if kind.has_bitmap() {
            self.write_null_buffer(window, nulls);
        }
    }

    // Which rows are valid; nothing where all are.
    fn write_null_buffer(&mut self, window: &Window, nulls: u64)
        requires kind { (k : Kind) → Is (numbers_of window.now.node) k → has_bitmap k ≡ true }
        requires nulls { nulls ≡ (own_field (shown_in (window_in window.now))).nulls }
        requires room { RoomFor [] (marks_in window.now ∷ []) self.now }
        ensures { Sends [] (marks_in window.now ∷ []) self.old self.new }
    {
        let Some(marks) = window.marks() else {
            self.encode_nothing();
            return;
        };
        if nulls == 0 {
            self.encode_nothing();
        } else {
            self.write_bits(&marks);
        }
    }

    // An empty buffer of work memory.
    fn encode_nothing(&mut self)
        requires { RoomFor [] (made [] ∷ []) self.now }
        ensures { Sends [] (made [] ∷ []) self.old self.new }
    {
        self.encode_sink_buffer(Buffer {
            source: EncodedBuffer::Work(self.work_len as u64),
            len: 0,
        });
    }

    // The values of a Fixed, or the keys of a Dictionary.
    fn write_slots(&mut self, window: &Window)
        requires kind { Is (numbers_of window.now.node) Kind.Fixed
            ⊎ Is (numbers_of window.now.node) Kind.Dictionary }
        requires room { RoomFor [] (slots_in window.now ∷ []) self.now }
        ensures { Sends [] (slots_in window.now ∷ []) self.old self.new }
    {
        let node = window.node().node();
        let start = node.slots + (node.from + window.first()) * node.size;
        self.encode_sink_buffer(Buffer {
            source: EncodedBuffer::Recording(start),
            len: window.slots().len() as u64,
        });
    }

    // The offsets and the values of byte strings.
    fn write_byte_arrays<O: OffsetSizeTrait>(&mut self, window: &Window)
        requires width { HasStrings (numbers_of window.now.node) O.WIDTH }
        requires room { RoomFor [] (offsets_of (wide O.WIDTH) window.now ∷ strings_of (wide O.WIDTH) window.now ∷ []) self.now }
        ensures { Sends [] (offsets_of (wide O.WIDTH) window.now ∷ strings_of (wide O.WIDTH) window.now ∷ []) self.old self.new }
    {
        let [offsets, values] = get_byte_array_buffers::<O>(window, self.work, self.work_len);
        self.work_len += offsets.len as usize;
        self.encode_sink_buffer(offsets);
        self.encode_sink_buffer(values);
    }

    // The offsets of lists. It answers the elements that they have.
    fn write_list_offsets<'b, O: OffsetSizeTrait>(&mut self, window: &Window<'b>) -> Window<'b>
        requires width { HasElements (numbers_of window.now.node) O.WIDTH }
        requires room { RoomFor [] (offsets_of (wide O.WIDTH) window.now ∷ []) self.now }
        ensures sends { Sends [] (offsets_of (wide O.WIDTH) window.now ∷ []) self.old self.new }
        ensures child { IsPassed window.now (window.now.node.index + 1) result }
        ensures smaller { IsSmaller window.now (window_in result) }
    {
        let (offsets, child) = get_list_array_buffers::<O>(window, self.work, self.work_len);
        self.work_len += offsets.len as usize;
        self.encode_sink_buffer(offsets);
        child
    }

    /// A field after those so far.
    pub(crate) fn push_node(&mut self, window: &Window, nulls: u64)
        requires room { self.now.field_count < length self.now.fields.now }
        requires nulls { nulls ≡ (own_field (shown_in (window_in window.now))).nulls }
        ensures { Sends (own_record window.now ∷ []) [] self.old self.new }
    {
        self.fields[self.field_count] = field_record(window, nulls);
        self.field_count += 1;
    }
}

// The field record of a window.
fn field_record(window: &Window, nulls: u64) -> FieldRecord
    requires { nulls ≡ (own_field (shown_in (window_in window.now))).nulls }
    ensures { result ≡ own_record window.now }
{
    FieldRecord {
        rows: window.rows() as i64,
        nulls: nulls as i64,
    }
}

/// How many bytes after so many fill them up to a multiple of the alignment.
pub fn pad_to_alignment(alignment: usize, len: u64) -> u64
    requires { 0 < alignment }
    ensures value { result ≡ padding alignment len }
    ensures few { result < alignment }
{
    let alignment = alignment as u64;
    (alignment - len % alignment) % alignment
}
