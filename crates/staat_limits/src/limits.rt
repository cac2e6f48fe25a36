// How many there may be of each thing that words, formats and tables count.

/// How many points a piece has at least.
pub const LEAST_POINTS: u32 = 4;

/// How many points a piece has at most.
pub const MOST_POINTS: u32 = 64;

/// How many parts an assembly has at most. Part numbers are below this.
pub const MOST_PARTS: u32 = 32;

/// How many pieces the parts of an assembly have at most in all. Piece numbers are below this.
pub const MOST_PIECES: u32 = 64;

/// How many parts a product has at most.
pub const MOST_PRODUCT_PARTS: u32 = 1024;

/// How many pieces the parts of a product have at most in all.
pub const MOST_PRODUCT_PIECES: u32 = 16_384;

/// How many planes a table has at least: the coordinate planes.
pub const LEAST_PLANES: u32 = 3;

/// How many planes a table has at most.
pub const MOST_PLANES: u32 = 1024;

/// How many planes a table has at most whose cells are listed.
pub const MOST_CELL_PLANES: u32 = 256;

/// How many boxes there are around the cube at most, in a product that the program makes itself.
pub const MOST_BOXES: u32 = 6;

/// By how many decimal places coordinates may be scaled at most.
pub const MOST_DIGITS: u32 = 6;

/// How great a count in a file may be: of points, of faces, or of the corners of a face.
pub const MOST_COUNT: u32 = 1_000_000;

/// How many bytes a file of points or a part list may have.
pub const FILE_LIMIT: usize = 1_048_576;

/// A certificate has fewer witnesses than this, and fewer directions.
pub const LIST_LIMIT: u32 = 1 << 25;

/// A line of a certificate has at most so many bytes, with its line feed.
pub const LINE_LIMIT: usize = 128;

/// How many bytes the text of a certificate or of a list of cells has at most.
pub const TEXT_LIMIT: u128 = 1 << 27;

/// The latest version of the text of a certificate. Versions are counted from 1.
pub const LATEST_VERSION: u32 = 2;
