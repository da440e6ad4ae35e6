//! Replies of a board, and the laws of its histories: the contract of each law is the law, and its body is empty.

ghost use Rattle.ball_model.specs.History.{StandingIsPosted, PostedStands, KeptNeverGoesBack};
ghost use Rattle.ball_model.specs.History.{FloorNeverGoesDown, NothingBelowFloor, BeginningIsLegal};
ghost use Rattle.ball_model.specs.History.{LastIsAnswer};

/// What became of a batch that was posted.
#[derive(Clone, Copy, Debug, PartialEq, Eq)]
pub enum Posted {
    /// It is of a superstep below the floor; nothing is changed.
    Old,
    /// A batch of its name is on the board already; nothing is changed.
    Known,
    /// It is on the board from now on.
    New,
}

/// What became of a snapshot that was to be kept.
#[derive(Clone, Copy, Debug, PartialEq, Eq)]
pub enum Kept {
    /// It is further than what was kept for its partition, and is kept from now on.
    New,
    /// It is not further than what is kept; nothing is changed.
    Behind,
}

/// A name is on the board exactly if it was posted, answered [`New`](Posted::New), and not dropped since.
pub fn standing_is_posted()
    ensures posted { StandingIsPosted }
    ensures stands { PostedStands }
{}

/// As a history goes on, what is kept for a partition never goes back, and the floor never goes down.
pub fn nothing_goes_back()
    ensures kept { KeptNeverGoesBack }
    ensures floor { FloorNeverGoesDown }
{}

/// No name below the floor is on the board.
pub fn floor_bounds_names()
    ensures { NothingBelowFloor }
{}

/// Each entry of a legal history was answered as the entries before it ask, whatever comes later.
pub fn replies_stay()
    ensures beginning { BeginningIsLegal }
    ensures last { LastIsAnswer }
{}
