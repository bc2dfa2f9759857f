//! Texts that say the same many times.

use std::alloc::{AllocError, Global};
use std::process::Abort;

/// So many times the same, with a text before and one behind.
#[derive(Clone, Copy, Drop)]
pub(crate) struct Repeated<'t> {
    pub(crate) before: &'t [u8],
    pub(crate) again: &'t [u8],
    pub(crate) times: usize,
    pub(crate) behind: &'t [u8],
}

fn bytes_of(alloc: Global, text: &Repeated<'_>) -> Result<Vec<u8>, AllocError> {
    let mut bytes = Vec::new(alloc);
    bytes.extend_from_slice(text.before)?;
    for _ in 0..text.times {
        bytes.extend_from_slice(text.again)?;
    }
    bytes.extend_from_slice(text.behind)?;
    Ok(bytes)
}

/// The bytes of the text, made once more where memory was refused.
pub(crate) fn bytes_again(rt: &impl Abort, alloc: Global, text: &Repeated<'_>) -> Vec<u8> {
    match bytes_of(alloc, text) {
        Ok(bytes) => bytes,
        Err(_) => bytes_of(alloc, text).expect(rt, "memory"),
    }
}
