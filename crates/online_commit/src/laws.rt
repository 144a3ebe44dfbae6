//! Laws of the output of a session. Each function exists for its clause and does nothing.
ghost use Rattle.online_commit.specs.Session.{HandedGrows, HandedStays};

/// The output after some positions is a prefix of the output of all positions, whatever positions follow.
pub fn what_is_handed_out_stays()
    ensures { HandedStays }
{}

/// More positions give no less output.
pub fn more_points_hand_out_more()
    ensures { HandedGrows }
{}
