//! What the words of each kind of line ask for.

ghost use Rattle.std.specs.Prelude.{◌≡◌, map};
ghost use Rattle.ras_script.specs.Kinds.{bank_asks, bert_asks, cpu_asks, erst_asks, ghes_asks};
ghost use Rattle.ras_script.specs.Kinds.{hest_asks, limit_asks, module_asks, module_limit_asks};
ghost use Rattle.ras_script.specs.Kinds.{panic_asks, place_asks, poll_asks, put_asks, range_asks};
ghost use Rattle.ras_script.specs.Kinds.{restart_asks, retire_asks};
ghost use Rattle.ras_script.specs.Line.{GivesLine, kinds, line_named};

use crate::fields::{
    BANK_WORDS, hex_bytes_of, hex_u64_of, read_label, read_limit, read_number, read_report, u8_of,
    u16_of, u64_of,
};
use crate::{ErrorReport, Line, LineRefused, Table};
use dimm_topology::Row;
use ras_facts::Entry;
use std::alloc::Global;

/// The greatest number of a memory channel.
pub const LAST_CHANNEL: u64 = 14;

/// The most words of a line of any kind: `panic`, an identifier, and a bank.
pub const MOST_WORDS: usize = 2 + BANK_WORDS;

// What a line asks for, by its first word and its other words.
pub(crate) fn event_of(alloc: Global, kind: &[u8], words: &[&[u8]]) -> Result<Line, LineRefused>
    ensures { GivesLine result (line_named kinds kind.now (map (λ word. word.now) words.now)) }
{
    if kind == b"bank".as_slice() {
        return bank_asks(words);
    }
    if kind == b"cpu".as_slice() {
        return cpu_asks(words);
    }
    if kind == b"module".as_slice() {
        return module_asks(alloc, words);
    }
    if kind == b"range".as_slice() {
        return range_asks(alloc, words);
    }
    if kind == b"place".as_slice() {
        return place_asks(alloc, words);
    }
    if kind == b"limit".as_slice() {
        return limit_asks(words);
    }
    if kind == b"module-limit".as_slice() {
        return module_limit_asks(words);
    }
    if kind == b"hest".as_slice() {
        return hest_asks(alloc, words);
    }
    if kind == b"erst".as_slice() {
        return erst_asks(alloc, words);
    }
    if kind == b"bert".as_slice() {
        return bert_asks(alloc, words);
    }
    if kind == b"ghes".as_slice() {
        return ghes_asks(alloc, words);
    }
    if kind == b"put".as_slice() {
        return put_asks(alloc, words);
    }
    if kind == b"poll".as_slice() {
        return poll_asks(words);
    }
    if kind == b"retire".as_slice() {
        return retire_asks(words);
    }
    if kind == b"panic".as_slice() {
        return panic_asks(words);
    }
    if kind == b"restart".as_slice() {
        return restart_asks(words);
    }
    Err(LineRefused::Kind)
}

// The snapshot of a bank, from the words after `bank`.
fn bank_asks(words: &[&[u8]]) -> Result<Line, LineRefused>
    ensures { result ≡ bank_asks (map (λ word. word.now) words.now) }
{
    let report = read_report(words)?;
    Ok(Line::Report(ErrorReport::Bank(report)))
}

// A CPU and its socket, from the words after `cpu`.
fn cpu_asks(words: &[&[u8]]) -> Result<Line, LineRefused>
    ensures { result ≡ cpu_asks (map (λ word. word.now) words.now) }
{
    let [cpu, socket] = words else {
        return Err(LineRefused::Words);
    };
    let cpu = u16_of(cpu)?;
    let socket = u8_of(socket)?;
    Ok(Line::Row(Row::Cpu { cpu, socket }))
}

// A memory module, from the words after `module`.
#[tactic(auto, using(crate::proofs::ShapeLemmas::four))]
fn module_asks(alloc: Global, words: &[&[u8]]) -> Result<Line, LineRefused>
    ensures { GivesLine result (module_asks (map (λ word. word.now) words.now)) }
{
    let [label, socket, bank, channel] = words else {
        return Err(LineRefused::Words);
    };
    let label = read_label(alloc, label)?;
    let socket = u8_of(socket)?;
    let bank = u8_of(bank)?;
    let channel = read_number(channel, LAST_CHANNEL)? as u8;
    Ok(Line::Row(Row::Module {
        label,
        socket,
        bank,
        channel,
    }))
}

// A range of addresses, from the words after `range`.
#[tactic(auto, using(crate::proofs::ShapeLemmas::three))]
fn range_asks(alloc: Global, words: &[&[u8]]) -> Result<Line, LineRefused>
    ensures { GivesLine result (range_asks (map (λ word. word.now) words.now)) }
{
    let [label, first, last] = words else {
        return Err(LineRefused::Words);
    };
    let label = read_label(alloc, label)?;
    let first = hex_u64_of(first)?;
    let last = hex_u64_of(last)?;
    if first > last {
        return Err(LineRefused::Number);
    }
    Ok(Line::Row(Row::Range { label, first, last }))
}

// Where firmware finds a memory module, from the words after `place`.
#[tactic(auto, using(crate::proofs::ShapeLemmas::four))]
fn place_asks(alloc: Global, words: &[&[u8]]) -> Result<Line, LineRefused>
    ensures { GivesLine result (place_asks (map (λ word. word.now) words.now)) }
{
    let [label, node, card, module] = words else {
        return Err(LineRefused::Words);
    };
    let label = read_label(alloc, label)?;
    let node = u16_of(node)?;
    let card = u16_of(card)?;
    let module = u16_of(module)?;
    Ok(Line::Row(Row::Place {
        label,
        node,
        card,
        module,
    }))
}

// A limit for pages, from the words after `limit`.
fn limit_asks(words: &[&[u8]]) -> Result<Line, LineRefused>
    ensures { result ≡ limit_asks (map (λ word. word.now) words.now) }
{
    let limit = read_limit(words)?;
    Ok(Line::Entry(Entry::Limit(limit)))
}

// A limit for modules, from the words after `module-limit`.
fn module_limit_asks(words: &[&[u8]]) -> Result<Line, LineRefused>
    ensures { result ≡ module_limit_asks (map (λ word. word.now) words.now) }
{
    let limit = read_limit(words)?;
    Ok(Line::Entry(Entry::ModuleLimit(limit)))
}

// A hardware error source table, from the words after `hest`.
fn hest_asks(alloc: Global, words: &[&[u8]]) -> Result<Line, LineRefused>
    ensures { GivesLine result (hest_asks (map (λ word. word.now) words.now)) }
{
    let [bytes] = words else {
        return Err(LineRefused::Words);
    };
    let bytes = hex_bytes_of(alloc, bytes)?;
    Ok(Line::Table(Table::Hest(bytes)))
}

// An error record serialization table, from the words after `erst`.
fn erst_asks(alloc: Global, words: &[&[u8]]) -> Result<Line, LineRefused>
    ensures { GivesLine result (erst_asks (map (λ word. word.now) words.now)) }
{
    let [bytes] = words else {
        return Err(LineRefused::Words);
    };
    let bytes = hex_bytes_of(alloc, bytes)?;
    Ok(Line::Table(Table::Erst(bytes)))
}

// A boot error record table and its region, from the words after `bert`.
#[tactic(auto, using(crate::proofs::ShapeLemmas::four))]
fn bert_asks(alloc: Global, words: &[&[u8]]) -> Result<Line, LineRefused>
    ensures { GivesLine result (bert_asks (map (λ word. word.now) words.now)) }
{
    let [boot, seconds, table, region] = words else {
        return Err(LineRefused::Words);
    };
    let boot = u64_of(boot)?;
    let seconds = u64_of(seconds)?;
    let table = hex_bytes_of(alloc, table)?;
    let region = hex_bytes_of(alloc, region)?;
    Ok(Line::Report(ErrorReport::Boot {
        boot,
        seconds,
        table,
        region,
    }))
}

// A generic error status block, from the words after `ghes`.
#[tactic(auto, using(crate::proofs::ShapeLemmas::five))]
fn ghes_asks(alloc: Global, words: &[&[u8]]) -> Result<Line, LineRefused>
    ensures { GivesLine result (ghes_asks (map (λ word. word.now) words.now)) }
{
    let [boot, seconds, source, number, bytes] = words else {
        return Err(LineRefused::Words);
    };
    let boot = u64_of(boot)?;
    let seconds = u64_of(seconds)?;
    let source = u16_of(source)?;
    let number = u64_of(number)?;
    let bytes = hex_bytes_of(alloc, bytes)?;
    Ok(Line::Report(ErrorReport::Block {
        boot,
        seconds,
        source,
        number,
        bytes,
    }))
}

// A record and its identifier, from the words after `put`.
fn put_asks(alloc: Global, words: &[&[u8]]) -> Result<Line, LineRefused>
    ensures { GivesLine result (put_asks (map (λ word. word.now) words.now)) }
{
    let [id, bytes] = words else {
        return Err(LineRefused::Words);
    };
    let id = hex_u64_of(id)?;
    let bytes = hex_bytes_of(alloc, bytes)?;
    Ok(Line::Put { id, bytes })
}

// The time of a poll, from the words after `poll`.
fn poll_asks(words: &[&[u8]]) -> Result<Line, LineRefused>
    ensures { result ≡ poll_asks (map (λ word. word.now) words.now) }
{
    let [seconds] = words else {
        return Err(LineRefused::Words);
    };
    let seconds = u64_of(seconds)?;
    Ok(Line::Poll { seconds })
}

// The boot below which boots are retired, from the words after `retire`.
fn retire_asks(words: &[&[u8]]) -> Result<Line, LineRefused>
    ensures { result ≡ retire_asks (map (λ word. word.now) words.now) }
{
    let [boot] = words else {
        return Err(LineRefused::Words);
    };
    let boot = u64_of(boot)?;
    Ok(Line::Entry(Entry::Retire(boot)))
}

// An identifier and the snapshot of a bank, from the words after `panic`.
fn panic_asks(words: &[&[u8]]) -> Result<Line, LineRefused>
    ensures { result ≡ panic_asks (map (λ word. word.now) words.now) }
{
    let [id, words @ ..] = words else {
        return Err(LineRefused::Words);
    };
    if words.len() != BANK_WORDS {
        return Err(LineRefused::Words);
    }
    let id = hex_u64_of(id)?;
    let bank = read_report(words)?;
    Ok(Line::Panic { id, bank })
}

// A `restart`, which has no other word.
fn restart_asks(words: &[&[u8]]) -> Result<Line, LineRefused>
    ensures { result ≡ restart_asks (map (λ word. word.now) words.now) }
{
    let [] = words else {
        return Err(LineRefused::Words);
    };
    Ok(Line::Restart)
}
