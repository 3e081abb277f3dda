// A folder of the system, and a medium in memory that crashes at each step.
use kept_wire::{FolderMedium, Medium, MemoryMedium, Name, replace};
use std::fs;
use std::test::Fail;

const OLD: &[u8] = b"old";

const NEW: &[u8] = b"new";

const TORN: &[u8] = b"ne\0";

const FOLDER: &str = "tests_of_files";

const PATH: &str = "tests_of_files/state";

#[test]
fn a_crash_at_each_step_leaves_the_file_whole(rt: HostRuntime) -> Result<(), Fail> {
    let alloc = rt.alloc();
    // How many calls go on, how many changes of FILE the crash takes back, and what it leaves.
    for (calls, back, left) in [
        (0, 0, Some(OLD)),
        (1, 0, Some(OLD)),
        (2, 0, Some(OLD)),
        (2, 1, None),
        (3, 0, Some(NEW)),
        (3, 1, Some(OLD)),
        (4, 0, Some(NEW)),
        (4, 1, None),
    ] {
        let mut medium = MemoryMedium::new(alloc, Some(OLD.to_vec(alloc)?), calls);
        assert_eq!(rt; replace(&mut medium, NEW).is_ok(), calls == 4);
        let found = match medium.crash(back, TORN.to_vec(alloc)?) {
            Some(mut crashed) => crashed.read(alloc).ok().flatten(),
            None => None,
        };
        assert_eq!(rt; found.as_deref(), left, "after {calls} calls");
    }
    Ok(())
}

#[test]
fn bytes_that_were_not_synced_may_be_lost(rt: HostRuntime) -> Result<(), Fail> {
    let alloc = rt.alloc();
    let mut medium = MemoryMedium::new(alloc, None, 2);
    assert!(rt; medium.write(Name::Next, NEW).is_ok() && medium.rename().is_ok());
    let Some(mut crashed) = medium.crash(0, TORN.to_vec(alloc)?) else {
        return Err(Fail::new("a crash leaves what there is"));
    };
    assert_eq!(rt; crashed.read(alloc).ok().flatten().as_deref(), Some(TORN));
    Ok(())
}

#[test]
fn files_are_replaced(rt: HostRuntime) -> Result<(), Fail> {
    let alloc = rt.alloc();
    let _ = fs::remove_dir_all(&rt, FOLDER);
    fs::create_dir(&rt, FOLDER)?;
    let mut medium = FolderMedium::new(alloc, &rt, PATH)?;
    assert!(rt; matches!(medium.read(alloc), Ok(None)));
    for bytes in [OLD, NEW] {
        assert!(rt; replace(&mut medium, bytes).is_ok());
        assert_eq!(rt; medium.read(alloc).ok().flatten().as_deref(), Some(bytes));
        assert!(rt; !fs::exists(&rt, "tests_of_files/state.new")?);
    }
    fs::remove_dir_all(&rt, FOLDER)?;
    assert!(rt; replace(&mut medium, OLD).is_err());
    Ok(())
}
