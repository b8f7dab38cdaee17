//! A ledger as a value.
ghost use Rattle.std.specs.Prelude.{◌≡◌, ◌≤◌, ◌<◌, [], ◌∷◌, ◌++◌, length, OnOk, OnErr, IfOk};
ghost use Rattle.ct_lines.specs.FaultLine.{IsFaultLine};
ghost use Rattle.ct_vectors.specs.declared.limits.TheConstants.{ROW_LIMIT, COLUMN_LIMIT, GRADE_LIMIT, MOVE_LIMIT};
ghost use Rattle.ct_ledger.specs.Parts.{IsLedger, IsLedgerPoint, IsEntry};
ghost use Rattle.ct_ledger.specs.LedgerText.{ledger_text, IsLedgerText};
ghost use Rattle.ct_lines.specs.Stops.{AtFault};

use crate::entries::LedgerEntry;
use crate::print::{push_entries, push_head, push_moves};
use crate::reading::ledger_of;
use ct_lines::TextStop as LedgerStop;
use ct_point::Point;
use std::alloc::{AllocError, Global};
use std::marker::Model;

/// A ledger: the size of an instance, a grade, moves as pairs of head and tail, and entries on their jobs, all within the
/// limits of its text. It says nothing by itself: who checks it decides whether it is accepted.
#[derive(Debug, Drop)]
pub struct Ledger {
    rows: u32,
    columns: u32,
    grade: u64,
    moves: Vec<(Point, Point)>,
    entries: Vec<LedgerEntry>,
}

impl Model for Ledger {
    ghost use Rattle.ct_ledger.specs.Parts.{LedgerParts, IsLedger};

    ghost Value = { LedgerParts };

    ghost view = { λ l. record { rows = l.rows; columns = l.columns; grade = l.grade; moves = l.moves.items; entries = l.entries.items } };

    ghost invariant = { λ l. IsLedger (record { rows = l.rows; columns = l.columns; grade = l.grade; moves = l.moves.items; entries = l.entries.items }) };
}

impl Ledger {
    /// A ledger of this size and grade, without moves and entries. It takes no memory.
    pub fn open(alloc: Global, rows: u32, columns: u32, grade: u64) -> Ledger
        requires some_row { 1 ≤ rows }
        requires row_limit { rows ≤ ROW_LIMIT }
        requires some_column { 1 ≤ columns }
        requires column_limit { columns ≤ COLUMN_LIMIT }
        requires grade_limit { grade ≤ GRADE_LIMIT }
        ensures { result ≡ record { rows = rows; columns = columns; grade = grade; moves = []; entries = [] } }
    {
        Ledger {
            rows,
            columns,
            grade,
            moves: Vec::new(alloc),
            entries: Vec::new(alloc),
        }
    }

    /// Adds a move at the end. For want of memory the points are dropped, and the ledger is as before.
    pub fn push_move(&mut self, head: Point, tail: Point) -> Result<(), AllocError>
        requires room { length self.old.moves < MOVE_LIMIT }
        requires head { IsLedgerPoint self.old.columns self.old.rows head }
        requires tail { IsLedgerPoint self.old.columns self.old.rows tail }
        ensures ok { OnOk result (self.new ≡ record self.old { moves = self.old.moves ++ (head, tail) ∷ [] }) }
        ensures err { OnErr result (self.new ≡ self.old) }
    {
        self.moves.push((head, tail))?;
        Ok(())
    }

    /// Adds an entry at the end. For want of memory the entry is dropped, and the ledger is as before.
    pub fn push_entry(&mut self, entry: LedgerEntry) -> Result<(), AllocError>
        requires { IsEntry entry }
        ensures ok { OnOk result (self.new ≡ record self.old { entries = self.old.entries ++ entry ∷ [] }) }
        ensures err { OnErr result (self.new ≡ self.old) }
    {
        self.entries.push(entry)?;
        Ok(())
    }

    /// The number of rows and the number of columns.
    pub fn size(&self) -> (u32, u32)
        ensures rows { result.0 ≡ self.now.rows }
        ensures columns { result.1 ≡ self.now.columns }
        ensures ledger { IsLedger self.now }
    {
        (self.rows, self.columns)
    }

    /// The grade up to which it speaks.
    pub fn grade(&self) -> u64
        ensures grade { result ≡ self.now.grade }
        ensures ledger { IsLedger self.now }
    {
        self.grade
    }

    /// The moves in order, each as its head and its tail.
    pub fn moves(&self) -> &[(Point, Point)]
        ensures moves { result.now ≡ self.now.moves }
        ensures ledger { IsLedger self.now }
    {
        self.moves.as_slice()
    }

    /// The entries in order.
    pub fn entries(&self) -> &[LedgerEntry]
        ensures entries { result.now ≡ self.now.entries }
        ensures ledger { IsLedger self.now }
    {
        self.entries.as_slice()
    }

    /// The text of the ledger, made in one buffer: linear in its length.
    pub fn print(&self, alloc: Global) -> Result<Vec<u8>, AllocError>
        ensures text { IfOk result (λ text. text.items ≡ ledger_text self.now) }
        ensures ledger { IsLedger self.now }
    {
        let (rows, columns) = self.size();
        let mut out = Vec::new(alloc);
        push_head(&mut out, rows, columns, self.grade())?;
        push_moves(&mut out, self.moves())?;
        push_entries(&mut out, self.entries())?;
        out.extend_from_slice(b"end\n")?;
        Ok(out)
    }

    /// The ledger that has this text. It goes once over the bytes, and takes the memory of the ledger.
    pub fn read(alloc: Global, bytes: &[u8]) -> Result<Ledger, LedgerStop>
        ensures ok { IfOk result (λ l. IsLedger l × (bytes.now ≡ ledger_text l)) }

        // The bytes are then the text of no ledger, and this is the first line at fault.
        ensures fault { AtFault (IsFaultLine IsLedgerText bytes.now) result }
    {
        ledger_of(alloc, bytes)
    }
}
