//! The limits as numbers: a function that does nothing, and its contract is the law.
ghost use Rattle.std.specs.Prelude.{◌≡◌, ◌^◌};

use crate::limits::{
    FILE_LIMIT, LATEST_VERSION, LEAST_PLANES, LEAST_POINTS, LINE_LIMIT, LIST_LIMIT, MOST_BOXES,
    MOST_CELL_PLANES, MOST_COUNT, MOST_DIGITS, MOST_PARTS, MOST_PIECES, MOST_PLANES, MOST_POINTS,
    MOST_PRODUCT_PARTS, MOST_PRODUCT_PIECES, TEXT_LIMIT,
};

/// How many points, pieces, parts, planes, boxes, digits, bytes and versions there may be.
pub fn limits()
    ensures least_points { LEAST_POINTS ≡ 4 }
    ensures most_points { MOST_POINTS ≡ 64 }
    ensures most_parts { MOST_PARTS ≡ 32 }
    ensures most_pieces { MOST_PIECES ≡ 64 }
    ensures most_product_parts { MOST_PRODUCT_PARTS ≡ 1024 }
    ensures most_product_pieces { MOST_PRODUCT_PIECES ≡ 16384 }
    ensures least_planes { LEAST_PLANES ≡ 3 }
    ensures most_planes { MOST_PLANES ≡ 1024 }
    ensures most_cell_planes { MOST_CELL_PLANES ≡ 256 }
    ensures most_boxes { MOST_BOXES ≡ 6 }
    ensures most_digits { MOST_DIGITS ≡ 6 }
    ensures most_count { MOST_COUNT ≡ 1000000 }
    ensures file_limit { FILE_LIMIT ≡ 1048576 }
    ensures list_limit { LIST_LIMIT ≡ 2 ^ 25 }
    ensures line_limit { LINE_LIMIT ≡ 128 }
    ensures text_limit { TEXT_LIMIT ≡ 2 ^ 27 }
    ensures latest_version { LATEST_VERSION ≡ 2 }
{}
