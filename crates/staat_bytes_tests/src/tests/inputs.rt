// What tests make their inputs of: names, bytes and words.

use staat_vec::{Bytes, Name};
use std::alloc::Global;
use std::process::Abort;

/// A text of its own.
pub fn owned(rt: &impl Abort, alloc: Global, text: &str) -> String {
    String::from_str(alloc, text).expect(rt, "memory")
}

/// The name of this text.
pub fn name(rt: &impl Abort, alloc: Global, text: &str) -> Name {
    Name::from_string(owned(rt, alloc, text))
}

/// A file of this text.
pub fn bytes(rt: &impl Abort, alloc: Global, text: &str) -> Bytes {
    Bytes::from_vec(text.as_bytes().to_vec(alloc).expect(rt, "memory"))
}

/// The words of a line, parted by single spaces; of an empty line none.
pub fn words(rt: &impl Abort, alloc: Global, line: &str) -> Vec<String> {
    let mut list = Vec::new(alloc);
    for word in line.split(' ') {
        if !word.is_empty() {
            list.push(owned(rt, alloc, word)).expect(rt, "memory");
        }
    }
    list
}
