//! The corners of a town and the streets between them. Serves `town_network` and `town_traces`; decided
//! by `specs/Corners.antt`.
ghost use Rattle.std.specs.Prelude.{◌≡◌, ◌≤◌, ◌<◌, ◌*◌, false};
ghost use Rattle.town.specs.Corners.{along, corner_at, heading_of, is_border, next_corner, node_id, opposite, turned};

/// The length of a street, in cm.
const STREET: u32 = 10_000;

/// A corner, by its row and its column from 0.
#[derive(Clone, Copy)]
pub struct Corner {
    pub row: u32,
    pub column: u32,
}

/// A spot on a street, in cm from the first corner.
#[derive(Clone, Copy)]
pub struct Spot {
    pub x: u32,
    pub y: u32,
}

/// A direction along the streets.
#[derive(Clone, Copy)]
pub enum Heading {
    East,
    North,
    West,
    South,
}

impl Heading {
    /// The direction with this number (0 to 3).
    pub fn from_number(number: u32) -> Heading
        ensures { result ≡ heading_of number }
    {
        match number {
            0 => Heading::East,
            1 => Heading::North,
            2 => Heading::West,
            _ => Heading::South,
        }
    }

    fn opposite(self) -> Heading
        ensures { result ≡ opposite self }
    {
        match self {
            Heading::East => Heading::West,
            Heading::North => Heading::South,
            Heading::West => Heading::East,
            Heading::South => Heading::North,
        }
    }
}

impl Corner {
    ghost use Rattle.town.specs.Corners.{IsInTown};

    /// The corner with this number: corners are numbered row by row.
    pub fn at(n: u32, number: u32) -> Corner
        requires { (1 ≤ n) × (number < n * n) }
        ensures corner { result ≡ corner_at n number }
        ensures inside { IsInTown n result }
    {
        Corner {
            row: number / n,
            column: number % n,
        }
    }

    /// The id of the corner's node.
    pub fn node_id(self, n: u32) -> u32
        requires { (n ≤ 100) × IsInTown n self }
        ensures { result ≡ node_id n self }
    {
        self.row * n + self.column
    }

    /// Whether no street leads in this direction.
    pub fn is_border(self, n: u32, way: Heading) -> bool
        requires { IsInTown n self }
        ensures { result ≡ is_border n self way }
    {
        match way {
            Heading::East => self.column >= n - 1,
            Heading::North => self.row >= n - 1,
            Heading::West => self.column == 0,
            Heading::South => self.row == 0,
        }
    }

    /// The direction, or the opposite one at the border.
    pub fn turned(self, n: u32, way: Heading) -> Heading
        requires { (2 ≤ n) × IsInTown n self }
        ensures way { result ≡ turned n self way }
        ensures open { is_border n self result ≡ false }
    {
        if self.is_border(n, way) {
            way.opposite()
        } else {
            way
        }
    }

    /// The corner at the other end of the street.
    pub fn next(self, n: u32, way: Heading) -> Corner
        requires { IsInTown n self × (is_border n self way ≡ false) }
        ensures corner { result ≡ next_corner self way }
        ensures inside { IsInTown n result }
    {
        let Corner { row, column } = self;
        match way {
            Heading::East => Corner {
                row,
                column: column + 1,
            },
            Heading::North => Corner {
                row: row + 1,
                column,
            },
            Heading::West => Corner {
                row,
                column: column - 1,
            },
            Heading::South => Corner {
                row: row - 1,
                column,
            },
        }
    }

    /// The spot this far along the street, in cm.
    pub fn along(self, n: u32, way: Heading, far: u32) -> Spot
        requires inside { (n ≤ 100) × IsInTown n self × (is_border n self way ≡ false) }
        requires far { far ≤ 10_000 }
        ensures spot { result ≡ along self way far }
        ensures small { (result.x ≤ 1_000_000) × (result.y ≤ 1_000_000) }
    {
        let x = STREET * self.column;
        let y = STREET * self.row;
        match way {
            Heading::East => Spot { x: x + far, y },
            Heading::North => Spot { x, y: y + far },
            Heading::West => Spot { x: x - far, y },
            Heading::South => Spot { x, y: y - far },
        }
    }

    /// The position of the corner.
    pub fn spot(self, n: u32) -> Spot
        requires { (n ≤ 100) × IsInTown n self }
        ensures { result ≡ record { x = 10_000 * self.column; y = 10_000 * self.row } }
    {
        Spot {
            x: STREET * self.column,
            y: STREET * self.row,
        }
    }
}
