ghost use Rattle.std.specs.Prelude.{◌≤◌, length};

use super::*;
use fixed_cost::{FileFault, FileKind};
use std::test::Fail;

const FREE: &str =
    "dualoc-instance 1\nsites 2 next 4\ncustomers 2 next 3\ncount 0 2\ncustomer 1 0.000000\ncustomer 2 3.500000\nsite 1 10.000000 none 1.000000 none\nsite 3 12.000000 8.000000 0.000000 7.250000\nend\n";

const SETTLED: &str =
    "dualoc-instance 2\nsites 2 next 4\ncustomers 1 next 3\ncount 1 1\ncustomer 2 3.500000\nsite 1 10.000000 none closed 1.000000\nsite 3 0.000000 8.000000 open none\nend\n";

// The same as the first, in other spellings.
const SPELLED: &str =
    "dualoc-instance 2 sites 02 next 4\n customers 2 next 3\r\ncount 0 2 customer 1 0 customer 02 +3.5\n\tsite 1 10. none free 1 none site 3 12 8 free .0 7.25 end";

// Whether the text is read, and is written so.
fn is_written(alloc: Global, text: &[u8], written: &[u8]) -> bool
    requires { length text.now ≤ 1000 }
{
    let Ok(inst) = read(alloc, text) else {
        return false;
    };
    match write(alloc, &inst) {
        Ok(bytes) => bytes.as_slice() == written,
        Err(_) => false,
    }
}

#[test]
fn writes_what_it_reads(rt: HostRuntime) {
    let alloc = rt.alloc();
    assert!(rt; is_written(alloc, FREE.as_bytes(), FREE.as_bytes()));
    assert!(rt; is_written(alloc, SETTLED.as_bytes(), SETTLED.as_bytes()));
    assert!(rt; is_written(alloc, SPELLED.as_bytes(), FREE.as_bytes()));
}

// Whether the text has this fault at this word of line 1.
fn fails_at(alloc: Global, text: &[u8], kind: FileKind, word: u32) -> bool
    requires { length text.now ≤ 1000 }
{
    match read(alloc, text) {
        Err(FormFault::File(fault)) => fault
            == FileFault {
                kind,
                line: 1,
                word,
            },
        _ => false,
    }
}

#[test]
fn names_the_first_fault(rt: HostRuntime) {
    let alloc = rt.alloc();
    assert!(rt; fails_at(alloc, b"", FileKind::Ended, 1));
    assert!(rt; fails_at(alloc, b"dualoc-instance 3", FileKind::BadWord, 2));
    assert!(rt; fails_at(alloc, b"dualoc-instance 1 sites 0", FileKind::BadSize, 4));
    assert!(rt;
        fails_at(
            alloc,
            b"dualoc-instance 1 sites 1 next 2 customers 1 next 2 count 0 1 customer 2",
            FileKind::BadIndex,
            15
        )
    );
    assert!(rt;
        fails_at(
            alloc,
            b"dualoc-instance 1 sites 1 next 2 customers 1 next 2 count 0 1 customer 1 -1",
            FileKind::NotANumber,
            16
        )
    );
    assert!(rt;
        fails_at(
            alloc,
            b"dualoc-instance 2 sites 1 next 2 customers 1 next 2 count 0 1 customer 1 0 site 1 0 none none",
            FileKind::BadWord,
            21
        )
    );
    assert!(rt;
        fails_at(
            alloc,
            b"dualoc-instance 1 sites 1 next 2 customers 1 next 2 count 0 1 customer 1 0 site 1 0 none none end x",
            FileKind::Trailing,
            23
        )
    );
}
