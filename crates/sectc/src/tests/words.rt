//! The words of a command line.

use crate::{SHORT, arguments};
use std::env::{Env, FillError};
use std::io;
use std::process::Abort;
use std::test::Fail;

/// An environment of these arguments.
#[derive(Drop)]
struct Given<'a> {
    words: &'a [&'a [u8]],
}

impl Env for Given<'_> {
    fn arg(&self, place: usize, room: &mut [u8]) -> Result<usize, FillError> {
        let Some(word) = self.words.get(place) else {
            return Err(FillError::NotPresent);
        };
        if word.len() > room.len() {
            return Err(FillError::TooLong);
        }
        room[..word.len()].copy_from_slice(word);
        Ok(word.len())
    }

    fn var(&self, _name: &str, _room: &mut [u8]) -> Result<usize, FillError> {
        Err(FillError::NotPresent)
    }

    fn var_at(&self, _place: usize, _room: &mut [u8]) -> Result<usize, FillError> {
        Err(FillError::NotPresent)
    }
}

/// The words of a command line are these, each as it was given.
fn expect_words(rt: &(impl AllocGlobal + Abort), words: &[&[u8]]) -> Result<(), Fail> {
    let given = Given { words: &*words };
    let found = arguments(&(given, rt.alloc()))?;
    assert_eq!(rt; found.len(), words.len());
    for (word, given) in found.iter().zip(words) {
        assert_eq!(rt; word.as_bytes(), *given);
    }
    Ok(())
}

#[test]
fn words_of_any_length_are_read(rt: HostRuntime) -> Result<(), Fail> {
    let long = [b'7'; 5 * SHORT];
    expect_words(&rt, &[b"sectc", b"", b"0", &long[..SHORT]])?;
    expect_words(&rt, &[b"sectc", &long[..SHORT + 1], b"1"])?;
    expect_words(&rt, &[b"sectc", b"2", &long])
}

#[test]
fn a_word_that_is_no_text_fails(rt: HostRuntime) -> Result<(), Fail> {
    let given = Given {
        words: &[b"sectc", b"\xff"],
    };
    match arguments(&(given, rt.alloc())) {
        Ok(_) => assert!(rt; false, "read as a text"),
        Err(refused) => assert_eq!(rt; refused.kind(), io::ErrorKind::InvalidData),
    }
    Ok(())
}
