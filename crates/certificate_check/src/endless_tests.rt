//! Certificates that are made as they are read, and have no end.
ghost use Rattle.std.specs.Prelude.{None};

use super::*;
use crate::checker::check_lines;
use crate::tests::example;
use certificate_reader::CertReader;
use shelf_port::{Shelf, ShelfFault};
use std::alloc::Global;
use std::test::Fail;

// Each file is the letter x without end, but for its second byte.
#[derive(Drop)]
struct Endless {
    second: u8,
}

impl Shelf for Endless {
    ghost files = { λ _. None };

    ghost read_faults = { λ _ _. 0 };

    ghost write_faults = { λ _ _. 0 };

    fn read_at(&mut self, _name: &str, at: u64, into: &mut [u8]) -> Result<usize, ShelfFault> {
        into.fill(b'x');
        if at == 0 && into.len() > 1 {
            into[1] = self.second;
        }
        Ok(into.len())
    }

    fn create(&mut self, _name: &str) -> Result<(), ShelfFault> {
        Ok(())
    }

    fn append(&mut self, _name: &str, bytes: &[u8]) -> Result<usize, ShelfFault> {
        Ok(bytes.len())
    }
}

// Whether this is what the checker says of the file with this second byte, of which it looks at no more
// than a million.
fn says(alloc: Global, second: u8, expected: CertFault) -> Result<bool, Fail> {
    let inst = example(alloc)?;
    let mut shelf = Endless { second };
    let mut reader = CertReader::new(alloc, 1_000_000);
    Ok(check_lines(alloc, &inst, &mut reader, &mut shelf, "k") == Err(expected))
}

#[test]
fn ends_where_the_file_does_not(rt: HostRuntime) -> Result<(), Fail> {
    let alloc = rt.alloc();
    let kind = CertKind::BadLine;
    assert!(rt; says(alloc, b'\n', CertFault::Text { kind, line: 1 })?);
    assert!(rt; says(alloc, b'x', CertFault::TooLong)?);
    Ok(())
}
