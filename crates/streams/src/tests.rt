// A reader that gives three bytes at a time, each time after it has asked to come later.
use super::{Failure, next_piece, read_whole};
use std::io::{self, ErrorKind, Read};
use std::test::Fail;

// It fails where so many bytes are left.
#[derive(Drop)]
struct Drips<'a> {
    left: &'a [u8],
    fails_at: usize,
    asked: bool,
}

impl Read for Drips<'_> {
    fn read(&mut self, buf: &mut [u8]) -> io::Result<usize> {
        self.asked = !self.asked;
        if self.asked {
            return Err(io::Error::from(ErrorKind::WouldBlock));
        }
        if self.left.len() == self.fails_at {
            return Err(io::Error::from(ErrorKind::ConnectionReset));
        }
        let many = self.left.len().min(buf.len()).min(3);
        let (piece, rest) = self.left.split_at(many);
        buf[..many].copy_from_slice(piece);
        self.left = rest;
        Ok(many)
    }
}

fn dripping(text: &[u8], fails_at: usize) -> Drips<'_> {
    Drips {
        left: text,
        fails_at,
        asked: false,
    }
}

#[test]
fn pieces_come_in_order(rt: HostRuntime) -> Result<(), Fail> {
    let mut reader = dripping(b"G0X1", 9);
    let mut bytes = [0u8; 8];
    for (many, seen) in [(3, b"G0X"), (1, b"10X"), (0, b"10X")] {
        assert_eq!(rt; next_piece(&mut reader, &mut bytes)?, many);
        assert_eq!(rt; bytes[..3], seen[..]);
    }
    Ok(())
}

#[test]
fn a_whole_input_is_read(rt: HostRuntime) -> Result<(), Fail> {
    let mut bytes = [0u8; 8];
    let whole = read_whole(&mut dripping(b"G0X1 Y2", 9), &mut bytes);
    assert!(rt; matches!(whole, Ok(7)));
    assert_eq!(rt; bytes[..7], b"G0X1 Y2"[..]);
    Ok(())
}

#[test]
fn an_input_that_fills_the_space_is_too_long(rt: HostRuntime) {
    let mut bytes = [0u8; 8];
    let whole = read_whole(&mut dripping(b"G0X1 Y2 Z3", 99), &mut bytes);
    assert!(rt; matches!(whole, Err(Failure::TooLong(8))));
    assert_eq!(rt; bytes[..], b"G0X1 Y2 "[..]);
}

// What was read before stays in the space, and the failure is told once more where it comes again.
#[test]
fn a_failure_in_mid_stream_is_told(rt: HostRuntime) {
    let mut reader = dripping(b"G0X1 Y2", 1);
    let mut bytes = [0u8; 8];
    for seen in [b"G0X1 Y\0\0", b"G0X1 Y\0\0"] {
        let whole = read_whole(&mut reader, &mut bytes);
        assert!(rt;
            matches!(whole, Err(Failure::CannotRead(why)) if why.kind() == ErrorKind::ConnectionReset)
        );
        assert_eq!(rt; bytes[..], seen[..]);
    }
}
