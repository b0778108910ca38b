//! The memories that a host lends for a call.
use crate::message::Message;
use crate::record::{BufferEntry, FieldRecord};

/// The memories that a host lends for a call.
#[derive(Drop)]
pub struct Memory<'a> {
    pub fields: &'a mut [FieldRecord],
    pub buffers: &'a mut [BufferEntry],
    pub messages: &'a mut [Message],
    pub work: &'a mut [u8],
    pub metadata: &'a mut [u8],
}
