use super::*;
use fixed_cost::{FileFault, FileKind};
use shelf_port::MemShelf;
use std::alloc::{AllocError, Global};
use std::test::Fail;

// Two warehouses and two customers in the form of the OR-Library, the capacities by the word.
const WAREHOUSES: &str = "2 2\ncapacity 7500\ncapacity .5\n6 6739.725 1.25\n6 3 4\n";

const SIMPLE: &str = "FILE: pair\n2 2 0\n1 7 1 2\n2 5 3 4\n";

const NETWORK: &str = "3 3 1\n1 2 5\n2 3 7\n1 2 4\n";

const OWN: &str =
    "dualoc-instance 1\nsites 1 next 2\ncustomers 1 next 2\ncount 0 1\ncustomer 1 0.000000\nsite 1 10.000000 none 1.000000\nend\n";

// Words of a form, an option, the text of a file, and the numbers of sites and customers that it has.
const READ: [(&str, &str, &str, usize, usize); 5] = [
    ("cap", "capacity=12", WAREHOUSES, 2, 2),
    ("uncap", "", WAREHOUSES, 2, 2),
    ("ufl", "", SIMPLE, 2, 2),
    ("pmed", "", NETWORK, 3, 3),
    ("own", "", OWN, 1, 1),
];

// What is read where the file of a form and an option holds the text, over a shelf whose call of this
// number fails: the numbers of sites and customers of the instance, or why there is none.
fn opened(
    alloc: Global,
    words: (&str, &str),
    text: &str,
    fails: u64,
) -> Result<Option<Result<(usize, usize), InstanceFault>>, AllocError> {
    let mut files = Vec::new(alloc);
    files.push((
        String::from_str(alloc, "f")?,
        text.as_bytes().to_vec(alloc)?,
    ))?;
    let mut shelf = MemShelf::new(alloc, files, vec![in alloc; fails]?).in_pieces(5);
    let Some(file) = InstanceFile::of(words.0, "f", capacity(words.1)) else {
        return Ok(None);
    };
    match open(alloc, &mut shelf, file) {
        Ok(inst) => Ok(Some(Ok((inst.sites(), inst.custs())))),
        Err(fault) => Ok(Some(Err(fault))),
    }
}

#[test]
fn reads_each_form(rt: HostRuntime) -> Result<(), Fail> {
    for (form, option, text, sites, custs) in READ {
        match opened(rt.alloc(), (form, option), text, 0)? {
            Some(Ok(sizes)) => assert_eq!(rt; sizes, (sites, custs), "sizes in {form}"),
            _ => assert!(rt; false, "{form} is not read"),
        }
    }
    Ok(())
}

#[test]
fn says_why_a_file_is_not_read(rt: HostRuntime) -> Result<(), Fail> {
    let alloc = rt.alloc();
    let needed = FileFault {
        kind: FileKind::NeedCapacity,
        line: 2,
        word: 1,
    };
    assert!(rt;
        matches!(opened(alloc, ("cap", "capacity=x"), WAREHOUSES, 0)?, Some(Err(InstanceFault::Faulty(fault))) if fault == needed)
    );
    assert!(rt;
        matches!(
            opened(alloc, ("uncap", ""), WAREHOUSES, 1)?,
            Some(Err(InstanceFault::Failed))
        )
    );
    assert!(rt; opened(alloc, ("uncap", "capacity=1"), WAREHOUSES, 0)?.is_none());
    assert!(rt; opened(alloc, ("mps", ""), WAREHOUSES, 0)?.is_none());
    Ok(())
}

#[test]
fn names_forms_and_capacities(rt: HostRuntime) {
    assert_eq!(rt; FileForm::of("pmed"), Some(FileForm::Pmed));
    assert_eq!(rt; FileForm::of("Own"), None);
    assert_eq!(rt; capacity("capacity=2.5"), Some(2_500_000));
    assert_eq!(rt; capacity("capacity2.5"), None);
    meanings();
}
