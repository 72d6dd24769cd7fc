// Answers, requests, numbers, links, places and files, each on one line: functions and no `Display`, since the types are of other crates.
#![tactic(auto, using(crate::proofs::Digits::decimal_base_ten, crate::proofs::Digits::padded_hex_byte, crate::proofs::Digits::padded_hex_word))]

ghost use Rattle.std.specs.Prelude.{◌≡◌, map, IfOk, string_bytes};
ghost use Rattle.report.specs.Text.{answer_text, exchange_text, exchanges_text, file_text, format_text, link_text, place_text, request_text, shown_byte, size_text, usage_text};

use device::Sector;
use drive::{Answer, Exchange, Request, Usage};
use std::alloc::{AllocError, Global};

pub fn answer_line(heap: Global, answer: &Answer) -> Result<String, AllocError>
    ensures { IfOk result (λ s. string_bytes s ≡ answer_text answer.now) }
{
    let Answer {
        code,
        length,
        layer,
        sector,
    } = *answer;
    let (code, layer) = (u8::from(code), u8::from(layer));
    format!(in heap; "CODE={code:02X} LENGTH={length} LAYER={layer} SECTOR={sector:04X}")
}

// A byte that no character is printed for is shown as a point.
fn printable(b: u8) -> char
    ensures { result ≡ shown_byte b }
{
    match b {
        0x20..=0x7E => b as char,
        _ => '.',
    }
}

// The bytes of a name or an ID as text.
fn shown_text(heap: Global, bytes: &[u8]) -> Result<String, AllocError>
    ensures { IfOk result (λ s. string_bytes s ≡ map shown_byte bytes.now) }
{
    bytes.iter().map(|b| printable(*b)).collect(heap)
}

fn format_line(heap: Global, id: &[u8]) -> Result<String, AllocError>
    ensures { IfOk result (λ s. string_bytes s ≡ format_text id.now) }
{
    let shown = shown_text(heap, id)?;
    format!(in heap; "FORMAT ID={shown}")
}

pub fn request_line(heap: Global, request: &Request) -> Result<String, AllocError>
    ensures { IfOk result (λ s. string_bytes s ≡ request_text request.now) }
{
    match request {
        Request::Format { id } => format_line(heap, id.as_slice()),
        Request::Door { open: true } => String::from_str(heap, "DOOR OPEN"),
        Request::Door { open: false } => String::from_str(heap, "DOOR CLOSED"),
        Request::Tab { on: true } => String::from_str(heap, "TAB ON"),
        Request::Tab { on: false } => String::from_str(heap, "TAB OFF"),
        Request::Status => String::from_str(heap, "STATUS"),
    }
}

pub fn usage_line(heap: Global, usage: &Usage) -> Result<String, AllocError>
    ensures { IfOk result (λ s. string_bytes s ≡ usage_text usage.now) }
{
    let Usage { free, used, files } = *usage;
    format!(in heap; "FREE={free} USED={used} FILES={files}")
}

// A request, and below it its answer and what it reported.
fn exchange_lines(heap: Global, exchange: &Exchange) -> Result<String, AllocError>
    ensures { IfOk result (λ s. string_bytes s ≡ exchange_text exchange.now) }
{
    let asked = request_line(heap, &exchange.request)?;
    let answer = answer_line(heap, &exchange.answer)?;
    match exchange.reported {
        None => format!(in heap; "{asked}\n  {answer}\n"),
        Some(usage) => {
            let usage = usage_line(heap, &usage)?;
            format!(in heap; "{asked}\n  {answer}\n  {usage}\n")
        }
    }
}

pub fn exchanges_lines(heap: Global, exchanges: &[Exchange]) -> Result<String, AllocError>
    ensures { IfOk result (λ s. string_bytes s ≡ exchanges_text exchanges.now) }
{
    exchanges
        .iter()
        .map(|exchange| exchange_lines(heap, exchange))
        .try_collect(heap)
}

// The links of the sector that has the number.
pub fn link_line(heap: Global, number: u16, sector: &Sector) -> Result<String, AllocError>
    ensures { IfOk result (λ s. string_bytes s ≡ link_text number sector.now) }
{
    let (back, forward) = (sector.back, sector.forward);
    format!(in heap; "SECTOR={number:04X} BACK={back:04X} FORWARD={forward:04X}")
}

// Where a sector lies on a device below.
pub fn place_line(heap: Global, number: u16, place: u16) -> Result<String, AllocError>
    ensures { IfOk result (λ s. string_bytes s ≡ place_text number place) }
{
    format!(in heap; "SECTOR={number:04X} PLACE={place:04X}")
}

// A file by its name and the number of its records.
pub fn file_line(heap: Global, name: &[u8], records: u16) -> Result<String, AllocError>
    ensures { IfOk result (λ s. string_bytes s ≡ file_text name.now records) }
{
    let name = shown_text(heap, name)?;
    format!(in heap; "{name}:{records}")
}

// How many sectors a device has.
pub fn size_line(heap: Global, sectors: u16) -> Result<String, AllocError>
    ensures { IfOk result (λ s. string_bytes s ≡ size_text sectors) }
{
    format!(in heap; "S={sectors}")
}
