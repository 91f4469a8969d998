// Inputs that end, that fill the area, and that fail.
use super::receive;
use std::io::{Error, ErrorKind, Read, Result};

// Gives three bytes, then fails.
#[derive(Drop)]
struct Failing {
    given: bool,
}

impl Read for Failing {
    fn read(&mut self, buf: &mut [u8]) -> Result<usize> {
        if self.given || buf.len() < 3 {
            return Err(Error::from(ErrorKind::Other));
        }
        self.given = true;
        buf[0] = 1;
        buf[1] = 2;
        buf[2] = 3;
        Ok(3)
    }
}

#[test]
fn input_that_ends(rt: HostRuntime) {
    let mut from: &[u8] = b"abc";
    let mut to = [9u8; 5];
    assert!(rt; receive(&mut from, &mut to).ok() == Some(3));
    assert!(rt; to == *b"abc\x09\x09");
}

#[test]
fn input_that_fills(rt: HostRuntime) {
    let mut from: &[u8] = b"abcdef";
    let mut to = [9u8; 5];
    assert!(rt; receive(&mut from, &mut to).ok() == Some(5));
    assert!(rt; to == *b"abcde");
    assert!(rt; from == b"f".as_slice());
}

#[test]
fn input_that_fails(rt: HostRuntime) {
    let mut to = [9u8; 5];
    assert!(rt; receive(&mut Failing { given: false }, &mut to).ok() == None);
}
