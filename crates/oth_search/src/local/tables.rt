//! The local hash tables of one search: one for boards with few empty squares, one for boards with more.
ghost use Rattle.std.specs.Prelude.{◌≡◌, IfSome};

use super::table::LocalTable;
use crate::bounds::Solved;
use crate::tuning::{
    LOCAL_TABLE_ROOT_MIN_EMPTIES, SECOND_LOCAL_MIN_EMPTIES, SECOND_LOCAL_ROOT_MIN_EMPTIES,
    TABLE_ALWAYS_MIN_EMPTIES,
};
use oth_rules::{Board, Scoring};
use std::alloc::Global;

/// The local tables of one search: one for boards of 5 to 8 empty squares if the root has at least 10, and one for
/// boards of 9 to 14 if it has at least 18 and no other search could use what this one finds. The first store makes
/// them, so the thread that searches does; a table that there is no memory for is left out. Both together take at most
/// 25 MB.
#[derive(Drop)]
pub struct LocalTables {
    alloc: Global,
    root: u8,
    few: Option<LocalTable>,
    more: Option<LocalTable>,
    // Whether the tables are still to be made.
    is_wanted: bool,
    // Whether boards of 9 to 14 empty squares go to the second table.
    has_more: bool,
}

impl LocalTables {
    /// Tables, still empty, for a root of `root` empty squares. `is_alone`: no other search can use what this one
    /// finds.
    pub fn of(alloc: Global, root: u8, is_alone: bool) -> LocalTables {
        LocalTables {
            alloc,
            root,
            few: None,
            more: None,
            is_wanted: is_remembered(root),
            has_more: is_alone && root >= SECOND_LOCAL_ROOT_MIN_EMPTIES,
        }
    }

    /// Whether these are tables as `of` makes them for a root of `root` empty squares while others search too.
    pub fn are_for(&self, root: u8) -> bool {
        self.root == root && !self.has_more
    }

    /// Whether boards of `empties` empty squares (9 and more) go to the second table.
    pub fn keeps_local(&self, empties: u8) -> bool {
        self.has_more && empties < TABLE_ALWAYS_MIN_EMPTIES
    }

    /// Returns what the board's table has of it under this scoring.
    pub fn probe_local(&self, board: &Board, scoring: Scoring) -> Option<Solved>
        ensures asked { IfSome result (λ s. (s.board ≡ board.now) × (s.scoring ≡ scoring)) }
    {
        let memo = if board.empties() < SECOND_LOCAL_MIN_EMPTIES {
            &self.few
        } else {
            &self.more
        };
        match memo {
            Some(memo) => memo.probe_local(board, scoring),
            None => None,
        }
    }

    /// Stores these bounds in their board's table, if there is one.
    pub fn store_local(&mut self, solved: &Solved) {
        if self.is_wanted {
            self.make();
        }
        let memo = if solved.board.empties() < SECOND_LOCAL_MIN_EMPTIES {
            &mut self.few
        } else {
            &mut self.more
        };
        if let Some(memo) = memo {
            memo.store_local(solved);
        }
    }

    // Makes the tables, as far as there is memory for them.
    #[cold]
    #[inline(never)]
    fn make(&mut self) {
        self.is_wanted = false;
        self.few = LocalTable::below(self.alloc, self.root).ok();
        if self.has_more {
            self.more = LocalTable::large_below(self.alloc, self.root).ok();
            self.has_more = self.more.is_some();
        }
    }
}

/// Whether a local table pays for a root of `empties` empty squares.
pub fn is_remembered(empties: u8) -> bool {
    empties >= LOCAL_TABLE_ROOT_MIN_EMPTIES
}
