//! The machine description that the lines of a run give.

ghost use Rattle.std.specs.Prelude.{◌≡◌, false, [], ◌∷◌, ◌++◌, IfOk, OnErr, OnOk};
ghost use Rattle.dimm_topology.specs.declared.row.Row.{Row};
ghost use Rattle.ras_script.specs.LineLaws.{IsInRange, IsReportInRange, IsRowInRange};
ghost use Rattle.ras_script.specs.declared.reader.TheConstants.{LONGEST_LINE};
ghost use Rattle.apei_sources.specs.Hest.{hest_of};
ghost use Rattle.std.specs.Prelude.{length, ◌≤◌, ◌<◌, ◌^◌};
ghost use Rattle.erst_interp.specs.Table.{erst_of};
ghost use Rattle.cper_records.specs.Header.{record_id, record_length};
ghost use Rattle.erst_store.specs.Store.{is_reserved};
ghost use Rattle.ras_events.specs.declared.event.Event.TheVariants.{Saved};
ghost use Rattle.ras_events.specs.Events.{AnswersEvent, admitted_in, block_event, erst_event};
ghost use Rattle.ras_events.specs.Events.{event_of, has_source, panic_event, with_driver};
ghost use Rattle.ras_events.specs.Events.{with_table};
ghost use Rattle.ras_events.specs.Events.{hest_event, no_settings, report_event, row_event};
ghost use Rattle.ras_events.specs.Events.{settings_after, with_sources};
ghost use Rattle.ras_events.specs.Sizes.{IsFitEvent, IsShortLine, IsShortReport};

use crate::{Event, EventRefused, LineRefusal, Made};
use apei_sources::{Hest, TableRefused, read_bert, read_block, read_hest};
use dimm_topology::{Row, Topology, TopologyRefused};
use erst_driver::Driver;
use erst_interp::{ErstTableRefused, admits, read_erst};
use ras_exit::Reason;
use ras_facts::{BankReport, Name, report_of_bank, report_of_block};
use ras_panic::panic_record;
use ras_script::{ErrorReport, Line, Table};
use std::alloc::Global;

/// The machine description so far: the rows of the topology, the error sources of the last table
/// that lists them, and the driver of the record store, by the last admitted table.
#[derive(Drop)]
pub struct Settings {
    pub topology: Topology,
    pub sources: Option<Hest>,
    pub driver: Option<Driver>,
}

impl Settings {
    /// Returns an empty machine description.
    pub fn new(alloc: Global) -> Settings
        ensures { result ≡ no_settings }
    {
        Settings {
            topology: Topology::new(alloc),
            sources: None,
            driver: None,
        }
    }

    /// Takes a line: changes the machine description if the line is part of it, and returns what
    /// else the line asks for. A later table replaces the one of its kind before. After an error
    /// the machine description is unchanged.
    ///
    /// # Errors
    ///
    /// `Refused`: with the first refusal that applies. For a row, `Topology`. For a table of error
    /// sources, `Hest`. For a status block `Source`, then `Block`. For boot errors `Bert`, then
    /// `Block`. For a table of the record store `Erst`, then `NoTable` if it isn't admitted. For a
    /// panic `Panic`, then `NoTable` if no table was admitted before. For a poll, `NoTable` if none
    /// was. `NoMemory`: only if memory runs out.
    pub fn take(&mut self, alloc: Global, line: Line) -> Result<Event, EventRefused>
        requires range { IsInRange line }
        requires short { IsShortLine line }
        ensures event { AnswersEvent result (event_of self.old line) }
        ensures settings { OnOk result (self.new ≡ settings_after self.old line) }
        ensures stays { OnErr result (self.new ≡ self.old) }
        ensures fit { IfOk result IsFitEvent }
    {
        match line {
            Line::Row(row) => self.take_row(row),
            Line::Table(Table::Hest(bytes)) => self.take_sources(alloc, bytes.bytes()),
            Line::Report(report) => self.event_of_report(alloc, &report),
            Line::Entry(entry) => Ok(Event::Counted(Made::of_entry(alloc, entry)?)),
            Line::Restart => Ok(Event::Reopened),
            Line::Nothing => Ok(Event::Nothing),
            Line::Table(Table::Erst(bytes)) => self.take_driver(alloc, bytes.bytes()),
            Line::Put { id, bytes } => Ok(Event::Put { id, bytes }),
            Line::Panic { id, bank } => self.event_of_panic(id, &bank),
            Line::Poll { seconds } => self.event_by_driver(Event::Polled { seconds }),
        }
    }

    // Appends a row to the machine description.
    fn take_row(&mut self, row: Row) -> Result<Event, EventRefused>
        requires { IsRowInRange row }
        ensures event { AnswersEvent result (row_event self.old.topology row) }
        ensures settings { OnOk result
            (self.new ≡ record self.old { topology = self.old.topology ++ row ∷ [] }) }
        ensures stays { OnErr result (self.new ≡ self.old) }
        ensures fit { IfOk result IsFitEvent }
    {
        match self.topology.add(row) {
            Ok(()) => Ok(Event::Settled),
            Err(TopologyRefused::NoMemory) => Err(EventRefused::NoMemory),
            Err(refused) => Err(Reason::Topology(refused).into()),
        }
    }

    // Replaces the table of error sources.
    fn take_sources(&mut self, alloc: Global, bytes: &[u8]) -> Result<Event, EventRefused>
        ensures event { AnswersEvent result (hest_event bytes.now) }
        ensures settings { OnOk result (self.new ≡ with_sources self.old (hest_of bytes.now)) }
        ensures stays { OnErr result (self.new ≡ self.old) }
        ensures fit { IfOk result IsFitEvent }
    {
        match read_hest(alloc, bytes) {
            Ok(sources) => {
                self.sources = Some(sources);
                Ok(Event::Settled)
            }
            Err(TableRefused::NoMemory) => Err(EventRefused::NoMemory),
            Err(refused) => Err(Reason::Hest(refused).into()),
        }
    }

    // Replaces the table that drives the record store, if the new table is admitted.
    fn take_driver(&mut self, alloc: Global, bytes: &[u8]) -> Result<Event, EventRefused>
        ensures event { AnswersEvent result (erst_event bytes.now) }
        ensures settings { OnOk result
            (self.new ≡ with_driver self.old (admitted_in (erst_of bytes.now))) }
        ensures stays { OnErr result (self.new ≡ self.old) }
        ensures fit { IfOk result IsFitEvent }
    {
        match read_erst(alloc, bytes) {
            Ok(table) => {
                if !admits(&table) {
                    return Err(EventRefused::Refused(LineRefusal::NoTable));
                }
                self.driver = Some(Driver::new(table));
                Ok(Event::Settled)
            }
            Err(ErstTableRefused::NoMemory) => Err(EventRefused::NoMemory),
            Err(refused) => Err(Reason::Erst(refused).into()),
        }
    }

    // Returns the event of a bank's report that is to be saved as a record under an identifier.
    fn event_of_panic(&self, id: u64, bank: &BankReport) -> Result<Event, EventRefused>
        ensures event { AnswersEvent result (panic_event self.now.driver id bank.now) }
        ensures fit { IfOk result IsFitEvent }
    {
        match panic_record(id, bank) {
            Ok(bytes) => self.event_of_record(id, &bytes),
            Err(refused) => Err(Reason::Panic(refused).into()),
        }
    }

    // Returns the event of a panic record that is to be saved under its identifier.
    fn event_of_record(&self, id: u64, bytes: &[u8; 456]) -> Result<Event, EventRefused>
        requires told { record_length bytes.now ≡ 456 }
        requires named { record_id bytes.now ≡ id }
        requires free { is_reserved id ≡ false }
        ensures event { AnswersEvent result (with_table self.now.driver (Saved id bytes.now)) }
        ensures fit { IfOk result IsFitEvent }
    {
        self.event_by_driver(Event::Saved { id, bytes: *bytes })
    }

    // Returns an event that needs a driver of the record store, if there is one.
    fn event_by_driver(&self, event: Event) -> Result<Event, EventRefused>
        requires { IsFitEvent event }
        ensures event { AnswersEvent result (with_table self.now.driver event) }
        ensures fit { IfOk result IsFitEvent }
    {
        match self.driver {
            Some(_) => Ok(event),
            None => Err(EventRefused::Refused(LineRefusal::NoTable)),
        }
    }

    // Returns the event of a report.
    fn event_of_report(&self, alloc: Global, report: &ErrorReport) -> Result<Event, EventRefused>
        requires range { IsReportInRange report.now }
        requires short { IsShortReport report.now }
        ensures event { AnswersEvent result (report_event self.now report.now) }
        ensures fit { IfOk result IsFitEvent }
    {
        match report {
            ErrorReport::Bank(bank) => {
                let report = report_of_bank(alloc, bank, &self.topology)?;
                Ok(Event::Counted(Made::of_report(alloc, report)?))
            }
            ErrorReport::Block {
                boot,
                seconds,
                source,
                number,
                bytes,
            } => {
                if !self.has_source(*source) {
                    return Err(Reason::Source.into());
                }
                let name = Name::Block {
                    boot: *boot,
                    source: *source,
                    number: *number,
                };
                self.event_of_block(alloc, name, *seconds, bytes.bytes())
            }
            ErrorReport::Boot {
                boot,
                seconds,
                table,
                region,
            } => {
                let bert = match read_bert(table.bytes()) {
                    Ok(bert) => bert,
                    Err(refused) => return Err(Reason::Bert(refused).into()),
                };
                let region = region.bytes();
                let length = region.len().min(bert.length as usize);
                self.event_of_block(
                    alloc,
                    Name::Boot { boot: *boot },
                    *seconds,
                    &region[..length],
                )
            }
        }
    }

    // Returns whether a table of error sources was read, and lists this identifier.
    fn has_source(&self, id: u16) -> bool
        ensures { result ≡ has_source self.now.sources id }
    {
        match &self.sources {
            Some(sources) => sources.source(id).is_some(),
            None => false,
        }
    }

    // Returns the event of a status block, which is counted under a name and at a time.
    fn event_of_block(
        &self,
        alloc: Global,
        name: Name,
        seconds: u64,
        bytes: &[u8],
    ) -> Result<Event, EventRefused>
        requires short { length bytes.now ≤ LONGEST_LINE }
        ensures event { AnswersEvent result (block_event self.now.topology name seconds bytes.now) }
        ensures fit { IfOk result IsFitEvent }
    {
        match read_block(bytes) {
            Ok(block) => {
                let report = report_of_block(alloc, name, seconds, &block, &self.topology)?;
                Ok(Event::Counted(Made::of_report(alloc, report)?))
            }
            Err(refused) => Err(Reason::Block(refused).into()),
        }
    }
}
