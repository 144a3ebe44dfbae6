//! The limits of a network. The definitions of a network and of its file cite these numbers.
ghost use Rattle.std.specs.Prelude.{◌≡◌};
ghost use Rattle.road_network.specs.Limits.{edge_limit, file_limit, node_limit, point_limit};

/// The limits that a network file is read within.
#[derive(Clone, Copy, Debug, PartialEq, Eq)]
pub enum NetworkLimits {
    /// A network of a city or a region.
    Standard,
    /// A network of a continent.
    Large,
}

impl NetworkLimits {
    /// Bytes of a network file.
    pub fn file_bytes(self) -> u64
        ensures { result ≡ file_limit self }
    {
        match self {
            NetworkLimits::Standard => 134_217_728,
            NetworkLimits::Large => 68_719_476_736,
        }
    }

    /// Edges of a network.
    pub fn edges(self) -> usize
        ensures { result ≡ edge_limit self }
    {
        match self {
            NetworkLimits::Standard => 150_000,
            NetworkLimits::Large => 1_000_000_000,
        }
    }

    /// Nodes of a network.
    pub fn nodes(self) -> usize
        ensures { result ≡ node_limit self }
    {
        match self {
            NetworkLimits::Standard => 60_000,
            NetworkLimits::Large => 1_000_000_000,
        }
    }

    /// Points of all lines together.
    pub fn points(self) -> usize
        ensures { result ≡ point_limit self }
    {
        match self {
            NetworkLimits::Standard => 1_000_000,
            NetworkLimits::Large => 4_000_000_000,
        }
    }
}

/// Points of one line.
pub const LINE_POINT_LIMIT: usize = 1_000_000;

/// The length of one edge, in cm.
pub const LENGTH_LIMIT: u32 = 100_000_000;

/// The absolute value of a coordinate, in cm.
pub const COORDINATE_LIMIT: u32 = 1_000_000_000;
