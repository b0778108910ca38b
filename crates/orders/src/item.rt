//! What a line of an order says.
ghost use Rattle.std.specs.Prelude.{◌≡◌, string_bytes, IsUtf8};
ghost use Rattle.orders.specs.Texts.{only_word};
ghost use Rattle.orders.specs.Items.{numbers_in, node_read, only_number, handling_read, flag_read, form_read, bytes_sink_read, buffers_sink_read, sink_read, batch_read, sizes_read, id_read, verb_read, said, said_by, rest_read, item_read, IsText, IsTextIn, ReadsText};

use crate::call::{Batch, Call, MemorySizes};
use crate::error::Why;
use crate::framing::{FormName, SinkSizes};
use crate::hex::read_hex;
use crate::number::read_number;
use crate::text::{expect_end, expect_word, only_word, split_word, without_comment};
use layout::Node;
use recording::DictionaryHandling;
use std::alloc::Global;
use std::str;

/// The runs of bytes that a case is made of.
// A word of the order: a closure in its place would have to be made and handed out.
#[derive(Clone, Copy, Debug, PartialEq, Eq, Hash)]
pub(crate) enum Part {
    Nodes,
    Bytes,
    Held,
}

/// What to do to the cases so far.
// Each is matched once, where it is done.
// No `Debug`: it would print the bytes of a recording.
#[derive(Drop)]
pub(crate) enum Item {
    Case(String),
    Node(Node),
    Hex(Part, Vec<u8>),
    File(Part, String),
    Align(u64),
    Handling(DictionaryHandling),
    ErrorOnReplacement(bool),
    Form(FormName),
    Meta(Vec<u8>),
    Sink(SinkSizes),
    Out(String),
    Call(Call),
}

// The word that a line begins with, matched once; what a line means is defined by it.
#[derive(Clone, Copy, Debug, PartialEq, Eq, Hash)]
enum Verb {
    Case,
    Node,
    Hex(Part),
    File(Part),
    Align,
    Handling,
    ErrorOnReplacement,
    Form,
    Meta,
    Sink,
    Out,
    Show,
    Id,
    Collect,
    Lend,
    Plan,
    Frame,
}

impl TryFrom<&[u8]> for Verb {
    type Error = Why;

    ghost try_from_gives = { λ word r. r ≡ verb_read word.now };

    fn try_from(word: &[u8]) -> Result<Verb, Why> {
        match word {
            b"case" => Ok(Verb::Case),
            b"node" => Ok(Verb::Node),
            b"nodes" => Ok(Verb::Hex(Part::Nodes)),
            b"bytes" => Ok(Verb::Hex(Part::Bytes)),
            b"nodesfile" => Ok(Verb::File(Part::Nodes)),
            b"bytesfile" => Ok(Verb::File(Part::Bytes)),
            b"align" => Ok(Verb::Align),
            b"handling" => Ok(Verb::Handling),
            b"error_on_replacement" => Ok(Verb::ErrorOnReplacement),
            b"form" => Ok(Verb::Form),
            b"meta" => Ok(Verb::Meta),
            b"sink" => Ok(Verb::Sink),
            b"held" => Ok(Verb::Hex(Part::Held)),
            b"out" => Ok(Verb::Out),
            b"show" => Ok(Verb::Show),
            b"id" => Ok(Verb::Id),
            b"collect" => Ok(Verb::Collect),
            b"memory" => Ok(Verb::Lend),
            b"plan" => Ok(Verb::Plan),
            b"frame" => Ok(Verb::Frame),
            _ => Err(Why::UnknownItem),
        }
    }
}

/// The item of a line, if it has one.
#[tactic(auto, unfolding(crate::specs::Items::item_read))]
pub(crate) fn read_item(heap: Global, line: &[u8]) -> Result<Option<Item>, Why>
    ensures { ReadsText said_by IsTextIn result (item_read line.now) }
{
    let Some((word, rest)) = split_word(without_comment(line)) else {
        return Ok(None);
    };
    let verb = Verb::try_from(word)?;
    Ok(Some(read_rest(heap, verb, rest)?))
}

// The item that a verb and the rest of its line make.
#[tactic(auto, unfolding(crate::specs::Items::rest_read))]
fn read_rest(heap: Global, verb: Verb, rest: &[u8]) -> Result<Item, Why>
    ensures { ReadsText said IsText result (rest_read verb rest.now) }
{
    match verb {
        Verb::Case => read_word(heap, rest).map(Item::Case),
        Verb::Node => read_node(rest).map(Item::Node),
        Verb::Hex(part) => read_hex(heap, rest).map(|bytes| Item::Hex(part, bytes)),
        Verb::File(part) => read_word(heap, rest).map(|path| Item::File(part, path)),
        Verb::Align => only_number(rest).map(Item::Align),
        Verb::Handling => read_handling(rest).map(Item::Handling),
        Verb::ErrorOnReplacement => read_flag(rest).map(Item::ErrorOnReplacement),
        Verb::Form => read_form(rest).map(Item::Form),
        Verb::Meta => read_hex(heap, rest).map(Item::Meta),
        Verb::Sink => read_sink(rest).map(Item::Sink),
        Verb::Out => read_word(heap, rest).map(Item::Out),
        Verb::Show => read_batch(rest).map(|batch| Item::Call(Call::Show(batch))),
        Verb::Id => read_id(rest).map(Item::Call),
        Verb::Collect => read_batch(rest).map(|batch| Item::Call(Call::Collect(batch))),
        Verb::Lend => read_sizes(rest).map(|sizes| Item::Call(Call::Lend(sizes))),
        Verb::Plan => read_batch(rest).map(|batch| Item::Call(Call::Plan(batch))),
        Verb::Frame => read_batch(rest).map(|batch| Item::Call(Call::Frame(batch))),
    }
}

// The only word of a text, a name or a path.
fn read_word(heap: Global, text: &[u8]) -> Result<String, Why>
    ensures { ReadsText string_bytes IsUtf8 result (only_word text.now) }
{
    let word = str::from_utf8(only_word(text)?)?;
    Ok(String::from_str(heap, word)?)
}

// The node that ten numbers spell, and nothing after them.
fn read_node(text: &[u8]) -> Result<Node, Why>
    ensures { result ≡ node_read text.now }
{
    Ok(Node::from(read_numbers(text)?))
}

// The only word of a text, a number.
fn only_number(text: &[u8]) -> Result<u64, Why>
    ensures { result ≡ only_number text.now }
{
    let [number] = read_numbers::<1>(text)?;
    Ok(number)
}

// The handling of dictionaries that the only word names.
fn read_handling(text: &[u8]) -> Result<DictionaryHandling, Why>
    ensures { result ≡ handling_read text.now }
{
    match only_word(text)? {
        b"resend" => Ok(DictionaryHandling::Resend),
        b"delta" => Ok(DictionaryHandling::Delta),
        _ => Err(Why::UnknownWord),
    }
}

// What the only word says: 1 is yes, and 0 is no.
fn read_flag(text: &[u8]) -> Result<bool, Why>
    ensures { result ≡ flag_read text.now }
{
    match only_word(text)? {
        b"0" => Ok(false),
        b"1" => Ok(true),
        _ => Err(Why::UnknownWord),
    }
}

// The header form that the only word names.
fn read_form(text: &[u8]) -> Result<FormName, Why>
    ensures { result ≡ form_read text.now }
{
    match only_word(text)? {
        b"numbers" => Ok(FormName::Numbers),
        b"supplied" => Ok(FormName::Supplied),
        _ => Err(Why::UnknownWord),
    }
}

// The sizes of a sink, of the kind that the first word names.
fn read_sink(text: &[u8]) -> Result<SinkSizes, Why>
    ensures { result ≡ sink_read text.now }
{
    let (kind, rest) = expect_word(text)?;
    match kind {
        b"bytes" => read_bytes_sink(rest),
        b"buffers" => read_buffers_sink(rest),
        _ => Err(Why::UnknownWord),
    }
}

// The sink of bytes that a number spells, and nothing after it.
fn read_bytes_sink(text: &[u8]) -> Result<SinkSizes, Why>
    ensures { result ≡ bytes_sink_read text.now }
{
    let [bytes] = read_numbers::<1>(text)?;
    Ok(SinkSizes::Bytes { bytes })
}

// The sink of pieces that two numbers spell, and nothing after them.
fn read_buffers_sink(text: &[u8]) -> Result<SinkSizes, Why>
    ensures { result ≡ buffers_sink_read text.now }
{
    let [bytes, pieces] = read_numbers::<2>(text)?;
    Ok(SinkSizes::Buffers { bytes, pieces })
}

// The batch that three numbers spell, and nothing after them.
fn read_batch(text: &[u8]) -> Result<Batch, Why>
    ensures { result ≡ batch_read text.now }
{
    let [first, columns, rows] = read_numbers::<3>(text)?;
    Ok(Batch {
        first,
        columns,
        rows,
    })
}

// The sizes of memories that five numbers spell, and nothing after them.
fn read_sizes(text: &[u8]) -> Result<MemorySizes, Why>
    ensures { result ≡ sizes_read text.now }
{
    let [fields, buffers, messages, work, metadata] = read_numbers::<5>(text)?;
    Ok(MemorySizes {
        fields,
        buffers,
        messages,
        work,
        metadata,
    })
}

// The call for the next id, which has no words.
#[tactic(auto, unfolding(crate::specs::Texts::at_end))]
fn read_id(text: &[u8]) -> Result<Call, Why>
    ensures { result ≡ id_read text.now }
{
    expect_end(text)?;
    Ok(Call::Id)
}

// So many numbers, a word each, and nothing after them.
fn read_numbers<const N: usize>(text: &[u8]) -> Result<[u64; N], Why>
    ensures { result ≡ numbers_in N text.now }
{
    let mut numbers = [0; N];
    // Each word is taken off the front of the rest, as in every other item.
    let mut rest = text;
    for number in &mut numbers {
        let (word, after) = expect_word(rest)?;
        *number = read_number(word)?;
        rest = after;
    }
    expect_end(rest)?;
    Ok(numbers)
}
