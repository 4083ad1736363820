//! A seat of a shared table as C has it.

ghost use Rattle.std.specs.Prelude.{◌≡◌, Bool, None};
ghost use Rattle.std.specs.Option.{MatchOption};
ghost use Rattle.std.specs.declared.option.Option.{Option};
ghost use Rattle.std.specs.Coded.{coded_option};
ghost use Rattle.oth_table.specs.Parts.{Use};
ghost use Rattle.oth_c.specs.Owned.{owned};
ghost use Rattle.oth_c.specs.contracts.seated.Seated.{the_row};

use crate::loose::Loose;
use crate::seated::SeatSlot;
use std::alloc::Global;
use std::marker::Model;
use std::mem::replace;
use std::ptr::null_mut;

/// A seat of a shared table, or none. C sees a pointer, which is null where there is no seat.
#[repr(C)]
pub struct OthSeat {
    at: *mut u8,
    alloc: Global,
    pub ghost held: { Option Use } by { coded_option the_row.coded },
}

impl Model for OthSeat {
    ghost also_owns = { λ s. owned s.alloc s.at s.held };
}

impl OthSeat {
    fn of(place: Loose<SeatSlot, Global>) -> OthSeat
        ensures { result.held ≡ place.value.seated }
    {
        let Loose { at, alloc } = place;
        let at = at as *mut u8;
        OthSeat { at, alloc }
    }

    fn none(alloc: Global) -> OthSeat
        ensures { result.held ≡ None }
    {
        OthSeat {
            at: null_mut(),
            alloc,
        }
    }

    fn into_loose(self) -> Option<Loose<SeatSlot, Global>>
        ensures { MatchOption result (self.held ≡ None) (λ l. self.held ≡ l.value.seated) }
    {
        let OthSeat { at, alloc } = self;
        if at.is_null() {
            None
        } else {
            let at = at as *mut SeatSlot;
            Some(Loose { at, alloc })
        }
    }

    /// Takes the seat out, and leaves none.
    pub fn take(&mut self, alloc: Global) -> Option<Box<SeatSlot>>
        ensures none { self.new.held ≡ None }
        ensures taken { MatchOption result (self.old.held ≡ None) (λ b. self.old.held ≡ b.value.seated) }
    {
        match replace(self, OthSeat::none(alloc)).into_loose() {
            Some(place) => Some(place.into_box()),
            None => None,
        }
    }

    /// Puts a seat in, in place of what is there.
    pub fn put(&mut self, place: Box<SeatSlot>)
        ensures { self.new.held ≡ place.value.seated }
    {
        *self = OthSeat::of(Loose::of(place));
    }
}

impl Drop for OthSeat {
    fn drop(self) {
        if let Some(place) = self.into_loose() {
            drop(place.into_box());
        }
    }
}

unsafe impl Send for OthSeat {}
