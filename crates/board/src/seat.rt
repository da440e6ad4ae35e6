//! The right to use a board.

ghost use Rattle.std.specs.Prelude.{◌≡◌, ◌+◌, ◌-◌, ◌≤◌, []};
ghost use Rattle.ball_model.specs.History.{calls_by};
ghost use Rattle.ball_model.specs.Caller.{IsCaller};
ghost use Rattle.board.specs.Rule.{share};
ghost use Rattle.board.specs.Seats.{IsAt, SharesNumbers};

use crate::board::Board;
use crate::rule::{GivesNumbers, Pass};
use std::marker::Model;

/// A new seat gets one in 1,024 of the numbers that its maker still has; a seat that has fewer makes none.
const SHARE: u64 = 1024;

/// What a seat was granted: a pass to the table, and numbers, the first of which is its own.
#[derive(Drop)]
pub(crate) struct Grant {
    pub(crate) pass: Pass,
    pub(crate) number: u64,
    pub(crate) room: u64,
}

/// The right to use a board, for one thread at a time.
///
/// A seat owns a range of numbers, the first of which is its own; a split gives the last of them away. So no two seats
/// ever have one number. The first seat of a board has 2^63 numbers, and can be split 38,191 times. The k-th seat that it
/// makes can be split some 31,000 - k times, seats that those make fewer times still, and a seat that is six splits deep
/// not at all.
#[derive(Drop)]
pub struct Seat {
    pub(crate) grant: Grant,
}

impl Model for Seat {
    ghost use Rattle.board.specs.Seats.{SeatView};

    ghost Value = { SeatView };

    ghost use Rattle.board.specs.Inside.{seat_view, IsSeat};

    ghost view = { seat_view };

    ghost invariant = { IsSeat };
}

impl Seat {
    /// A seat of another number, which has seen as much and has made no call.
    ///
    /// It gets the last of this seat's numbers, one in 1,024 of those that this seat still has, so there have to be
    /// 1,024. It takes no memory, and waits for nobody.
    pub fn split(&mut self, board: &Board) -> Seat
        requires board { IsAt board.now self.old }
        requires room { SHARE ≤ self.old.room }
        ensures kept { SharesNumbers self.old self.new }
        ensures left { self.new.room ≡ self.old.room - share self.old.room }
        ensures board { IsAt board.now result }
        ensures number { result.caller.number ≡ self.old.caller.number + self.new.room }
        ensures room { result.room ≡ share self.old.room }
        ensures seen { result.caller.seen ≡ self.old.caller.seen }
        ensures legal { IsCaller result.caller }
        ensures unused { calls_by result.caller.number result.caller.seen ≡ [] }
    {
        let share = self.grant.room / SHARE;
        let pass = board
            .table
            .shared
            .split_seat::<GivesNumbers>(&mut self.grant.pass);
        self.grant.room -= share;
        Seat {
            grant: Grant {
                pass,
                number: self.grant.number + self.grant.room,
                room: share,
            },
        }
    }
}
