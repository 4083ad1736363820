//! One thread's announcing of the items that it is about to search, and what it has found of each.
ghost use Rattle.std.specs.Prelude.{◌≡◌};

use super::announced::Announced;
use super::found_items::FoundItems;
use oth_rules::{Board, Square};
use oth_search::{Cells, Solved};
use std::alloc::Global;

/// What a thread that searches a board announces: it tells where it begins to search a board and where that ends, and
/// hears which item it has to tell the gate of.
#[derive(Drop)]
pub struct Announcer<'a> {
    announced: &'a Announced,
    // The root's move below which it searches.
    square: Square,
    // The item that it has announced and is searching.
    open: Option<u32>,
    found: FoundItems,
}

impl<'a> Announcer<'a> {
    /// An announcer that is searching nothing, and has found nothing. Where there is no memory it keeps nothing of what
    /// it finds.
    pub fn of(alloc: Global, announced: &'a Announced) -> Announcer<'a> {
        Announcer {
            announced,
            square: Square::numbered(0),
            open: None,
            found: FoundItems::of(alloc, announced.count()),
        }
    }

    /// Whether the gate has heard of an item.
    pub(crate) fn has_begun(&self) -> bool {
        self.announced.has_begun()
    }

    /// The root's move below which the thread searches.
    pub(crate) fn square(&self) -> Square {
        self.square
    }

    /// What the thread has found of the item of this number, and `known`.
    pub(crate) fn known_of_item(&self, number: u32, known: &Solved) -> Solved
        ensures board { result.board ≡ known.now.board }
        ensures scoring { result.scoring ≡ known.now.scoring }
    {
        self.found.known_of(number, known)
    }

    /// The number of this board after the root's move to the square and a reply, where it is an item.
    pub(crate) fn number_below(&self, square: Square, board: &Board) -> Option<u32> {
        self.announced.number_of(square, board)
    }

    /// The thread is about to search below the root's move to this square.
    pub(crate) fn enter(&mut self, square: Square) {
        self.square = square;
    }

    /// The search of the board after that move begins, of which this is known. Returns its number and all that is known
    /// of it, where it is an item that the caller has to announce.
    pub(crate) fn begin_move<C: Cells>(
        &mut self,
        known: &Solved,
        cells: &mut C,
    ) -> Option<(u32, Solved)>
        ensures fixed { C.fixed cells.new ≡ C.fixed cells.old }
    {
        match self.announced.number_of_move(self.square) {
            Some(number) => self.begin_item(number, known, cells),
            None => None,
        }
    }

    /// As `begin_move`, of a board below the move.
    pub(crate) fn begin<C: Cells>(&mut self, known: &Solved, cells: &mut C) -> Option<(u32, Solved)>
        ensures fixed { C.fixed cells.new ≡ C.fixed cells.old }
    {
        match self.announced.number_of(self.square, &known.board) {
            Some(number) => self.begin_item(number, known, cells),
            None => None,
        }
    }

    /// As `begin_move`, of the item of this number.
    pub(crate) fn begin_item<C: Cells>(
        &mut self,
        number: u32,
        known: &Solved,
        cells: &mut C,
    ) -> Option<(u32, Solved)>
        ensures fixed { C.fixed cells.new ≡ C.fixed cells.old }
    {
        if !self.announced.take(number) {
            return None;
        }
        self.open = Some(number);
        let known = known.awake();
        let told = Solved::looked_up(&known.board, cells, known.scoring);
        Some((number, self.known_of_item(number, &known).joined(&told)))
    }

    /// The gate has heard that the search of the item begins.
    pub(crate) fn tell(&self, number: u32) {
        self.announced.tell(number);
    }

    /// The search of the board after the root's move has ended, and found these bounds. Returns its number, where it is
    /// an item that the caller announced.
    pub(crate) fn end_move(&mut self, found: &Solved) -> Option<u32> {
        match self.announced.number_of_move(self.square) {
            Some(number) => self.end_item(number, found),
            None => None,
        }
    }

    /// As `end_move`, of a board below the move.
    pub(crate) fn end(&mut self, found: &Solved) -> Option<u32> {
        match self.announced.number_of(self.square, &found.board) {
            Some(number) => self.end_item(number, found),
            None => None,
        }
    }

    /// As `end_move`, of the item of this number.
    pub(crate) fn end_item(&mut self, number: u32, found: &Solved) -> Option<u32> {
        self.found.keep(number, found);
        self.open.take()
    }
}
