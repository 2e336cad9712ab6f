ghost use Rattle.std.specs.Prelude.{◌≤◌, length};

use super::*;

// What the sizes of a short text are, or the fault of the word.
fn sizes_in(bytes: &[u8]) -> Result<TableSizes, FileFault>
    requires { length bytes.now ≤ 1000 }
{
    let mut reader = WordReader::new(bytes);
    read_sizes(&mut reader)
}

fn has_sizes(bytes: &[u8], sites: u32, custs: u32) -> bool
    requires { length bytes.now ≤ 1000 }
{
    sizes_in(bytes) == Ok(TableSizes { sites, custs })
}

fn has_bad_size(bytes: &[u8], word: u32) -> bool
    requires { length bytes.now ≤ 1000 }
{
    let kind = FileKind::BadSize;
    sizes_in(bytes)
        == Err(FileFault {
            kind,
            line: 1,
            word,
        })
}

#[test]
fn reads_sizes_within_the_limits(rt: HostRuntime) {
    assert!(rt; has_sizes(b"2 3", 2, 3) && has_sizes(b"3000. 3333", 3_000, 3_333));
    assert!(rt; has_sizes(b"2000 5000", 2_000, 5_000));
    assert!(rt; has_bad_size(b"3001 1", 1) && has_bad_size(b"0 1", 1));
    assert!(rt; has_bad_size(b"3000 3334", 2) && has_bad_size(b"1 5001", 2));
}

// Whether the row is of these two lanes.
fn is_pair(row: Result<LaneRow, FormFault>, near: u64, far: u64) -> bool {
    match row {
        Ok(row) => row.len() == 2 && row.get(0) == Some(near) && row.get(1) == Some(far),
        Err(_) => false,
    }
}

#[test]
fn reads_a_row_of_costs(rt: HostRuntime) {
    let mut reader = WordReader::new(b"1.5\n20 x");
    assert!(rt;
        is_pair(
            read_lanes(rt.alloc(), &mut reader, 2),
            1_500_000,
            20_000_000
        )
    );
    assert!(rt; !is_pair(read_lanes(rt.alloc(), &mut reader, 2), 0, 0));
}
