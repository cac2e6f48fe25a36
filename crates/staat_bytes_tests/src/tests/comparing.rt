// The comparisons of all tests. Each ends the test where two values differ, and says at what.

use crate::sameness::{are_same_bytes, are_same_counts, are_same_texts};
use staat_cert::CertRefusal;
use std::alloc::Global;
use std::fmt::Display;
use std::process::Abort;

/// Two truths.
pub fn same_truth(rt: &impl Abort, got: bool, want: bool, at: &str) {
    if got != want {
        rt.panic(at);
    }
}

/// What a reader of certificates answers to a piece, and what it is to answer.
pub fn same_answer(rt: &impl Abort, got: Result<(), CertRefusal>, want: Result<(), CertRefusal>) {
    same_truth(rt, got == want, true, "an answer to a piece");
}

/// Two counts.
pub fn same_count(rt: &impl Abort, got: usize, want: usize, at: &str) {
    assert!(rt; are_same_counts(got, want), "at {at}: {got}, not {want}");
}

/// Two texts.
pub fn same_text(rt: &impl Abort, got: &str, want: &str, at: &str) {
    assert!(rt; are_same_texts(got, want), "at {at}: {got:?}, not {want:?}");
}

/// Two runs of bytes.
pub fn same_bytes(rt: &impl Abort, got: &[u8], want: &[u8], at: &str) {
    assert!(rt; are_same_bytes(got, want), "at {at}: {got:?}, not {want:?}");
}

/// The text of a value.
pub fn text_of<T: Display>(rt: &impl Abort, alloc: Global, value: &T) -> String {
    format!(in alloc; "{value}").expect(rt, "memory")
}

/// A value and its text.
pub fn shows<T: Display>(rt: &impl Abort, alloc: Global, value: &T, want: &str) {
    same_text(rt, text_of(rt, alloc, value).as_str(), want, want);
}
