//! The frame of a batch, planned and written.
ghost use Rattle.std.specs.Prelude.{◌≡◌, false};
ghost use Rattle.recording.specs.declared.options.DictionaryHandling.TheVariants.{Resend};
ghost use Rattle.recording.specs.declared.options.IpcWriteOptions.{IpcWriteOptions as Options};
ghost use Rattle.recording.specs.Options.{Sets};
ghost use Rattle.columns.specs.Plans.{messages_of};
ghost use Rattle.timing.specs.Framing.{FramesColumns, FramesMessages, TellsFrames};

use crate::plan::NO_BUFFER;
use columns::{FieldRecord, Memory, Message};
use dictionaries::{DictionaryTracker, MetDictionary};
use frames::{ByteSink, Numbers, write_to_sink};
use layout::Fault;
use recording::{Columns, IpcWriteOptions, Recording};

/// Plans a batch of so many columns, from a node on, and writes its frame to the start of `out`; answers how long that is, or 0
/// where the columns or a memory are refused or `out` is too short.
// No `Result` crosses to C.
#[unsafe(no_mangle)]
pub extern "C" fn timing_frame(
    recording: &Recording,
    node: usize,
    count: u64,
    rows: u64,
    work: &mut [u8],
    metadata: &mut [u8],
    out: &mut [u8],
) -> u64
    ensures { TellsFrames recording.now node count rows work.old metadata.old out.old out.new result }
{
    match frame_columns(recording, node, count, rows, work, metadata, out) {
        Ok(len) => len as u64,
        Err(_) => 0,
    }
}

// The frames of columns with the dictionaries that they meet in a new stream; answers how long they are.
fn frame_columns(
    recording: &Recording,
    node: usize,
    count: u64,
    rows: u64,
    work: &mut [u8],
    metadata: &mut [u8],
    out: &mut [u8],
) -> Result<usize, Fault>
    ensures { (o : Options) × Sets o 64 Resend false × FramesColumns recording.now node count rows o work.old metadata.old out.old out.new result }
{
    let options = IpcWriteOptions::default();
    let columns = recording.columns(node, count, rows)?;
    let met = DictionaryTracker::new().collect_all_dicts(&columns, &options)?;
    frame_messages(&columns, &met, &options, work, metadata, out)
}

// The frames of the dictionaries met and of the batch; answers how long they are.
fn frame_messages(
    columns: &Columns,
    met: &[MetDictionary],
    options: &IpcWriteOptions,
    work: &mut [u8],
    metadata: &mut [u8],
    out: &mut [u8],
) -> Result<usize, Fault>
    ensures { Sets options.now 64 Resend false → FramesMessages (messages_of columns.now met.now) work.old metadata.old out.old out.new result }
{
    let mut fields = [FieldRecord::default(); 64];
    let mut buffers = [NO_BUFFER; 192];
    let mut messages = [Message::default(); 1];
    let mut memory = Memory {
        fields: &mut fields,
        buffers: &mut buffers,
        messages: &mut messages,
        work,
        metadata,
    };
    let mut sink = ByteSink::new(out, 0);
    write_to_sink(columns, met, options, &Numbers, 0, &mut sink, &mut memory)?;
    Ok(sink.held().len())
}
