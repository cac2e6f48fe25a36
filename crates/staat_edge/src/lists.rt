// The list types of shelves and sinks.
use staat_vec::{Bytes, Listed, Name};

/// A list of files, each a name and its bytes. Where a name stands twice, the first counts.
pub type Files = Listed<(Name, Bytes)>;

/// A list of numbers of calls.
pub type Calls = Listed<u64>;
