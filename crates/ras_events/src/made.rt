//! The pieces of an event.

ghost use Rattle.std.specs.Prelude.{◌≡◌, [], ◌∷◌, ◌++◌, IfOk, OnOk};
ghost use Rattle.std.specs.Option.{option_map_or};
ghost use Rattle.ras_events.specs.declared.made.Piece.TheVariants as PieceFor;
ghost use Rattle.ras_events.specs.Making.{made_by_report, made_of_entry, piece_of_report};

use cper_records::Unreadable;
use ras_base::NoMemory;
use ras_facts::{Details, Entry, Report};
use std::alloc::Global;
use std::marker::Model;

/// A piece of an event.
#[derive(Debug, Drop)]
pub enum Piece {
    /// An entry for the account, and the details of its items.
    Counted { entry: Entry, details: Details },
    /// A record of the store, by its identifier, that can't be read, and why.
    Unread { id: u64, why: Unreadable },
}

/// The pieces of an event, in order.
#[derive(Debug, Drop)]
pub struct Made {
    pieces: Vec<Piece>,
}

impl Model for Made {
    ghost use Rattle.std.specs.Prelude.{List};
    ghost use Rattle.ras_events.specs.declared.made.Piece.{Piece};

    ghost Value = { List Piece };

    ghost view = { λ m. m.pieces.items };
}

impl Made {
    /// Returns no pieces.
    pub fn new(alloc: Global) -> Made
        ensures { result ≡ [] }
    {
        Made {
            pieces: Vec::new(alloc),
        }
    }

    /// Returns one piece, of an entry without details.
    ///
    /// # Errors
    ///
    /// `NoMemory`: only if memory runs out.
    pub fn of_entry(alloc: Global, entry: Entry) -> Result<Made, NoMemory>
        ensures { IfOk result (λ made. made ≡ made_of_entry entry) }
    {
        let details = Details::new(alloc);
        Made::one(alloc, Piece::Counted { entry, details })
    }

    /// Returns one piece, of a report, or no pieces if there is no report.
    ///
    /// # Errors
    ///
    /// `NoMemory`: only if memory runs out.
    pub fn of_report(alloc: Global, report: Option<Report>) -> Result<Made, NoMemory>
        ensures { IfOk result (λ made. made ≡ option_map_or made_by_report report []) }
    {
        match report {
            Some(report) => Made::one(alloc, piece_of_report(report)),
            None => Ok(Made::new(alloc)),
        }
    }

    /// Appends the piece of a report: its fact, and the details of its items.
    ///
    /// # Errors
    ///
    /// `NoMemory`: only if memory runs out.
    pub fn push_report(&mut self, report: Report) -> Result<(), NoMemory>
        ensures { OnOk result (self.new ≡ self.old ++ piece_of_report report ∷ []) }
    {
        self.push(piece_of_report(report))
    }

    /// Appends the piece of a record of the store that can't be read: its identifier, and why.
    ///
    /// # Errors
    ///
    /// `NoMemory`: only if memory runs out.
    pub fn push_unread(&mut self, id: u64, why: Unreadable) -> Result<(), NoMemory>
        ensures { OnOk result (self.new ≡ self.old ++ PieceFor.Unread id why ∷ []) }
    {
        self.push(Piece::Unread { id, why })
    }

    // Returns one piece, without room for others.
    fn one(alloc: Global, piece: Piece) -> Result<Made, NoMemory>
        ensures { IfOk result (λ made. made ≡ piece ∷ []) }
    {
        let pieces = vec![in alloc; piece]?;
        Ok(Made { pieces })
    }

    // Returns the pieces, in order.
    pub(crate) fn into_pieces(self) -> Vec<Piece>
        ensures { result.items ≡ self }
    {
        self.pieces
    }

    // Appends a piece.
    fn push(&mut self, piece: Piece) -> Result<(), NoMemory>
        ensures { OnOk result (self.new ≡ self.old ++ piece ∷ []) }
    {
        self.pieces.push(piece)?;
        Ok(())
    }
}

// Returns the piece of a report: its fact, and the details of its items.
fn piece_of_report(report: Report) -> Piece
    ensures { result ≡ piece_of_report report }
{
    let Report { fact, details } = report;
    Piece::Counted {
        entry: Entry::Fact(fact),
        details,
    }
}
