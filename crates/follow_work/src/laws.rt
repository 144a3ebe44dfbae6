//! The laws of what `streams` writes. Each function exists for its clause and does nothing.
ghost use Rattle.follow_work.specs.FollowedDrives.{StreamsFollowEachDrive};
ghost use Rattle.follow_work.specs.FollowedIds.{StreamsFollowEachId};

/// If the outcome of `streams` in which no drive ends before the file has status 0, the lines of each id of the trace
/// file are, without the id and the space after it, what `follow` writes of the trace of all its positions. The last
/// line is the total line of these traces.
pub fn streams_follow_each_id()
    ensures { StreamsFollowEachId }
{}

/// If the outcome of `streams` with drives that end has status 0, the lines of each id of the trace file are, without
/// the id and the space after it, what `follow` writes of its drives, one after the other. The last line is the total
/// line of all drives.
pub fn streams_follow_each_drive()
    ensures { StreamsFollowEachDrive }
{}
