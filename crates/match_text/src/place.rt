//! The lines of a match text after its first, and the state that decides which line may come next.
//! Serves `read_match`; decided by `IsAllowed`.
ghost use Rattle.std.specs.Prelude.{◌≡◌};
ghost use Rattle.match_text.specs.Grammar.{IsAllowed, place_after};

use crate::matched::{Label, Routed};

/// A line after the first.
#[derive(Drop)]
pub enum Line {
    Point(Label),
    Piece(Routed),
    End,
}

/// The state between two lines of a text: it decides which line may come next.
#[derive(Clone, Copy)]
pub struct Place {
    /// The id of the trace.
    pub id: u32,
    /// The number of the next position.
    pub next: u32,
    /// The first position with candidates whose piece line has not come yet.
    pub waiting: Option<u32>,
}

/// The state after this line, which is allowed at `place`.
pub fn place_after(place: Place, line: &Line) -> Place
    requires { IsAllowed place line.now }
    ensures { result ≡ place_after place line.now }
{
    match line {
        Line::Point(Label::Missing) => Place {
            next: place.next + 1,
            ..place
        },
        Line::Point(Label::On { .. }) => Place {
            next: place.next + 1,
            waiting: Some(place.waiting.unwrap_or(place.next)),
            ..place
        },
        Line::Piece(_) => Place {
            waiting: None,
            ..place
        },
        Line::End => place,
    }
}
