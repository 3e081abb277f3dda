// A wire over files, which a second one goes on with.
use kept_wire::{FileWire, FolderMedium, KeptWire};
use std::alloc::AllocError;
use std::fs;
use std::test::Fail;
use wire_lines::{Wire, send};

const FOLDER: &str = "tests_of_files_of_a_wire";

const INPUT: &str = "tests_of_files_of_a_wire/input";

const OUTPUT: &str = "tests_of_files_of_a_wire/output";

const STATE: &str = "tests_of_files_of_a_wire/state";

// A wire over the files, with no byte in its streams.
fn over_files(
    rt: &HostRuntime,
) -> Result<FileWire<'_, HostRuntime, &'static [u8], Vec<u8>>, AllocError> {
    let alloc = rt.alloc();
    let medium = FolderMedium::new(alloc, rt, STATE)?;
    Ok(FileWire::new(rt, medium, &[], Vec::new(alloc), Some(INPUT), Some(OUTPUT)))
}

#[test]
fn files_are_gone_on_with(rt: HostRuntime) -> Result<(), Fail> {
    let alloc = rt.alloc();
    let _ = fs::remove_dir_all(&rt, FOLDER);
    fs::create_dir(&rt, FOLDER)?;
    fs::write(&rt, INPUT, "abcdef")?;
    fs::write(&rt, OUTPUT, "before")?;
    let mut piece = [0; 3];
    let mut first = over_files(&rt)?;
    assert!(rt; matches!(first.open(alloc), Ok(None)));
    assert_eq!(rt; first.start_new(), Ok(6));
    assert_eq!(rt; first.read(&mut piece), Ok(3));
    assert_eq!(rt; &piece[..], b"abc".as_slice());
    assert!(rt; send(&mut first, b"xyz").is_ok() && first.sync_output().is_ok());
    assert!(rt; first.keep(b"3 and 8").is_ok());
    let mut next = over_files(&rt)?;
    assert_eq!(rt;
        next.open(alloc).ok().flatten().as_deref(),
        Some(&b"3 and 8"[..])
    );
    assert!(rt; next.start_at(7, 8).is_err() && next.start_at(3, 10).is_err());
    assert!(rt; next.start_at(3, 8).is_ok());
    assert_eq!(rt; next.read(&mut piece), Ok(3));
    assert_eq!(rt; &piece[..], b"def".as_slice());
    assert!(rt; send(&mut next, b"w").is_ok());
    assert_eq!(rt; fs::read(&rt, OUTPUT)?.as_slice(), b"beforexyw".as_slice());
    fs::remove_dir_all(&rt, FOLDER)?;
    Ok(())
}
