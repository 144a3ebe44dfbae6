//! Laws of the lines of traces and of calls on sessions. Each function exists for its clause and does nothing.
ghost use Rattle.trace_sessions.specs.Calls.{IdsAreAnsweredAlone};
ghost use Rattle.trace_sessions.specs.CommonLabels.{CommittedIsCommonPrefix};
ghost use Rattle.trace_sessions.specs.DrivesAlone.{DrivesAreFollowedAlone, DrivesHaveEachPosition, IdsHaveOneDrive, NoDriveIsIdle};
ghost use Rattle.trace_sessions.specs.FollowText.{FollowIsMatch, WrittenLinesStay};
ghost use Rattle.trace_sessions.specs.StreamText.{IdsAreFollowedAlone, IdsHaveFollowTexts};

/// The follow text without its lines `fix I` and `finish` is the match text of the same trace.
pub fn follow_is_match()
    ensures { FollowIsMatch }
{}

/// Lines written for some positions stay, whatever positions follow.
pub fn written_lines_stay()
    ensures { WrittenLinesStay }
{}

/// The lines of an id in a stream, without the id, are the follow text of its positions alone, if no id is full and
/// all ids are below 2^32.
pub fn ids_are_followed_alone()
    ensures { IdsAreFollowedAlone }
{}

/// In the text of a stream, the lines that begin with an id and a space are, without these, the follow text of its
/// positions alone, if no id is full and all ids are below 2^32.
pub fn ids_have_follow_texts()
    ensures { IdsHaveFollowTexts }
{}

/// In a stream whose drives end, the lines of an id, without the id, are the follow texts of its drives alone, one after
/// the other, if all ids are below 2^32.
pub fn drives_are_followed_alone()
    ensures { DrivesAreFollowedAlone }
{}

/// The positions of the drives of an id, one drive after the other, are those of the id in the file.
pub fn drives_have_each_position()
    ensures { DrivesHaveEachPosition }
{}

/// With the greatest number of seconds, and if no time is greater and no id is full, the lines of a stream whose drives
/// end are those of a stream whose drives do not.
pub fn no_drive_is_idle()
    ensures { NoDriveIsIdle }
{}

/// With the greatest number of seconds, and if no time is greater and no id is full, the drives are the ids in order of
/// first appearance, each with all of its positions.
pub fn ids_have_one_drive()
    ensures { IdsHaveOneDrive }
{}

/// If all calls of `feed` and `close` in a list are `Ok`, and those of one id are `Ok` without the others,
/// that id's calls return the same items in both.
pub fn ids_are_answered_alone()
    ensures { IdsAreAnsweredAlone }
{}

/// If the latest position of a trace has a candidate, the committed labels are the longest common prefix of the
/// lists of labels, one list for each best sequence to a candidate of that position. If it has none, all labels
/// are committed.
pub fn committed_is_common_prefix()
    ensures { CommittedIsCommonPrefix }
{}
