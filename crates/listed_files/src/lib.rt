//! Files that list a network or traces line by line.
//!
//! The readers accept more than one text for a network and for traces: with quotes, blanks, CR LF and
//! so on. `network_text` in `specs/NetworkText.antt` and `traces_text` in `specs/TraceText.antt` are
//! the plain ones. The laws say that they are read as what they list.
#![tactic(auto)]

ghost use Rattle.listed_files.specs.NetworkText.{NetworksAreRead};
ghost use Rattle.listed_files.specs.TraceText.{TracesAreRead};

use trace_reader::files_are_read_by_line;

/// The file that lists a network is read as that network.
pub fn networks_are_read()
    ensures { NetworksAreRead }
{}

/// The file that lists traces has no fault, and is read as these traces.
pub fn traces_are_read()
    ensures { TracesAreRead }
{
    files_are_read_by_line();
}
