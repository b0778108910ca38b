//! An order: text that spells the node tables and the bytes of some cases, an item a line.
//!
//! - `case NAME` starts a case. The lines below belong to the last case that was started.
//! - `node` and ten numbers append a node to the table: kind mark size rows from bitmap slots data extent span.
//! - `nodes HEX` and `nodesfile PATH` append bytes to the table, `bytes HEX` and `bytesfile PATH` to the bytes.
//! - `align N` sets the alignment, 64 where no line does.
//! - `handling resend` and `handling delta` set how the case handles dictionaries that grew, by Resend where no line does.
//! - `error_on_replacement 1` refuses a dictionary that would be replaced, and `error_on_replacement 0`, the default, does not.
//! - `form numbers` and `form supplied` set the header form of the case; where no line does, it is supplied if the case has a `meta` line, else numbers.
//! - `meta HEX` supplies one more header.
//! - `sink bytes N` has the sink take N bytes more than it holds at first, 67108864 where no line says; `sink buffers N P` has it keep pieces, and take N bytes and P pieces more.
//! - `held HEX` appends bytes to those that the sink holds at first.
//! - `out PATH` says where the sink's bytes go when the case ends.
//! - `show FIRST COLUMNS ROWS` asks to show the rows of a batch: a first node, how many columns, and how many rows they have.
//! - `id` asks for the next id.
//! - `collect FIRST COLUMNS ROWS` asks to collect the dictionaries of a batch.
//! - `memory FIELDS BUFFERS MESSAGES WORK METADATA` says how long the memories are that the calls after it are lent: entries of the first three, and bytes of the others.
//! - `plan FIRST COLUMNS ROWS` asks to plan the messages of a batch.
//! - `frame FIRST COLUMNS ROWS` asks to plan a batch and write its frames.
//!
//! The three options, and `form`, `sink` and `out`, stand for the whole case, wherever their lines are; of two lines that set the same, the last counts.
//!
//! Blanks stand between words, and `#` starts a comment. Hex is in pairs of digits, and `-` is none.
#![tactic(auto)]

ghost use Rattle.std.specs.Prelude.{◌≡◌, [], ◌∷◌, ◌++◌, string_bytes};
ghost use Rattle.std.specs.Option.{option_map};
ghost use Rattle.orders.specs.Orders.{spelled, fresh, header_form, started, cases_in, begun, Makes, Turns, Follows, OrderRead};
ghost use Rattle.orders.specs.Adding.{added, to_last_of};

mod call;
mod error;
mod framing;
mod hex;
mod item;
mod number;
mod options;
mod text;

pub use call::{Batch, Call, MemorySizes};
pub use error::{OrderError, Why};
pub use framing::{FormName, SinkSizes};
use item::{Item, Part, read_item};
pub use options::Options;
use recording::DictionaryHandling;
use std::alloc::Global;
use std::fs;
use std::rt::Files;
use text::Lines;

/// A recording to open, its node table and its bytes, the options and the framing that its lines set, and what they ask for. A case before the first `case` line has no name.
// The two runs stand apart, since an opening takes them so.
// No `Debug`: it would print the bytes of a recording.
#[derive(Drop)]
pub struct Case {
    pub name: Option<String>,
    pub nodes: Vec<u8>,
    pub bytes: Vec<u8>,
    pub options: Options,
    /// What the lines say; `header_form` gives the form also where none does.
    pub form: Option<FormName>,
    /// The headers that the case supplies, in order.
    pub headers: Vec<Vec<u8>>,
    pub sink: SinkSizes,
    /// What the sink holds at first.
    pub held: Vec<u8>,
    /// Where the sink's bytes go when the case ends.
    pub out: Option<String>,
    pub calls: Vec<Call>,
}

impl Case {
    fn new(heap: Global, name: Option<String>) -> Case
        ensures { spelled result ≡ fresh (option_map string_bytes name) }
    {
        Case {
            name,
            nodes: Vec::new(heap),
            bytes: Vec::new(heap),
            options: Options::default(),
            form: None,
            headers: Vec::new(heap),
            sink: SinkSizes::default(),
            held: Vec::new(heap),
            out: None,
            calls: Vec::new(heap),
        }
    }

    /// The header form of the case: the one that a line says, or else supplied where the case supplies a header.
    pub fn header_form(&self) -> FormName
        ensures { result ≡ header_form (spelled self.now) }
    {
        match self.form {
            Some(form) => form,
            None if self.headers.is_empty() => FormName::Numbers,
            None => FormName::Supplied,
        }
    }

    fn add(&mut self, more: More) -> Result<(), Why>
        ensures { Makes result (spelled self.new ≡ added more.entry (spelled self.old)) }
    {
        match more {
            More::Run(Part::Nodes, bytes) => self.nodes.extend_from_slice(bytes)?,
            More::Run(Part::Bytes, bytes) => self.bytes.extend_from_slice(bytes)?,
            More::Run(Part::Held, bytes) => self.held.extend_from_slice(bytes)?,
            More::Align(alignment) => self.options.alignment = alignment,
            More::Handling(handling) => self.options.dictionary_handling = handling,
            More::ErrorOnReplacement(refuse) => self.options.error_on_replacement = refuse,
            More::Form(form) => self.form = Some(form),
            More::Header(header) => self.headers.push(header)?,
            More::Sink(sizes) => self.sink = sizes,
            More::Out(path) => self.out = Some(path),
            More::Call(call) => self.calls.push(call)?,
        }
        Ok(())
    }
}

// What more a line says of a case.
#[derive(Drop)]
enum More<'a> {
    Run(Part, &'a [u8]),
    Align(u64),
    Handling(DictionaryHandling),
    ErrorOnReplacement(bool),
    Form(FormName),
    Header(Vec<u8>),
    Sink(SinkSizes),
    Out(String),
    Call(Call),
}

/// The cases of an order, at least one.
pub fn read_order(rt: &(impl Files + AllocGlobal), text: &[u8]) -> Result<Vec<Case>, OrderError>
    ensures { OrderRead text.now result }
{
    let mut cases = Vec::new(rt.alloc());
    // The last line is named where memory runs out after it.
    let mut line = 0;
    for (before, words) in Lines(text).enumerate() {
        line = before as u64 + 1;
        follow(rt, words, &mut cases).map_err(|why| OrderError { line, why })?;
    }
    begin(&mut cases).map_err(|why| OrderError { line, why })?;
    Ok(cases)
}

// Does to the cases so far what a line says.
fn follow(rt: &(impl Files + AllocGlobal), line: &[u8], cases: &mut Vec<Case>) -> Result<(), Why>
    ensures { Follows line.now (cases_in cases.old) result (cases_in cases.new) }
{
    let Some(item) = read_item(rt.alloc(), line)? else {
        return Ok(());
    };
    match item {
        Item::Case(name) => add_case(cases, Some(name)),
        Item::Node(node) => add_to_last(cases, More::Run(Part::Nodes, &node.to_bytes())),
        Item::Hex(part, bytes) => add_to_last(cases, More::Run(part, &bytes)),
        Item::File(part, path) => {
            add_to_last(cases, More::Run(part, &fs::read(rt, path.as_str())?))
        }
        Item::Align(alignment) => add_to_last(cases, More::Align(alignment)),
        Item::Handling(handling) => add_to_last(cases, More::Handling(handling)),
        Item::ErrorOnReplacement(refuse) => add_to_last(cases, More::ErrorOnReplacement(refuse)),
        Item::Form(form) => add_to_last(cases, More::Form(form)),
        Item::Meta(header) => add_to_last(cases, More::Header(header)),
        Item::Sink(sizes) => add_to_last(cases, More::Sink(sizes)),
        Item::Out(path) => add_to_last(cases, More::Out(path)),
        Item::Call(call) => add_to_last(cases, More::Call(call)),
    }
}

fn add_case(cases: &mut Vec<Case>, name: Option<String>) -> Result<(), Why>
    ensures { Turns (started (option_map string_bytes name)) cases.old result cases.new }
{
    let heap = *cases.allocator();
    cases.push(Case::new(heap, name))?;
    Ok(())
}

// An unnamed case where there is none yet.
fn begin(cases: &mut Vec<Case>) -> Result<(), Why>
    ensures { Turns begun cases.old result cases.new }
{
    if cases.is_empty() {
        add_case(cases, None)?;
    }
    Ok(())
}

// Adds to the last case, or to an unnamed one where there is none yet.
fn add_to_last(cases: &mut Vec<Case>, more: More) -> Result<(), Why>
    ensures { Turns (to_last_of more.entry) cases.old result cases.new }
{
    begin(cases)?;
    cases.last_mut().unwrap().add(more)
}
