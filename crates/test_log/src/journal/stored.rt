// Files of the system that are replaced.
use reg_journal::{Disk, DiskError, RenewError, Renewable, StoredFile, Trouble, make_alike};
use std::alloc::Global;
use std::fs::{self, File, OpenOptions};
use std::os::unix::fs::{MetadataExt, OpenOptionsExt, symlink};
use std::rt::Files;
use std::test::Fail;

/// A new file of that name with these bytes.
fn stored<R: Files<File = File> + Clone + Drop>(
    files: &R,
    alloc: Global,
    path: &str,
    bytes: &[u8],
) -> Result<StoredFile<R>, Fail> {
    let mut how = OpenOptions::new();
    how.read(true)
        .write(true)
        .create(true)
        .truncate(true)
        .mode(0o640);
    let mut disk = StoredFile::new(alloc, files.clone()?, path, how.open(files, path)?)?;
    disk.write_at(0, bytes).map_err(|_| "not written")?;
    disk.sync().map_err(|_| "not synced")?;
    Ok(disk)
}

#[test]
fn a_stored_file_is_replaced_with_its_owner_and_permissions(rt: HostRuntime) -> Result<(), Fail> {
    let alloc = rt.alloc();
    let mut disk = stored(&rt, alloc, "replaced.log", b"old\n")?;
    let before = fs::metadata(&rt, "replaced.log")?;
    // What a crash left of an earlier one is no hindrance.
    fs::write(&rt, "replaced.log.new", "torn")?;
    assert!(rt; disk.renew(b"the new lines\n").is_ok());
    let after = fs::metadata(&rt, "replaced.log")?;
    assert!(rt; after.ino() != before.ino() && after.mode() == before.mode());
    assert!(rt; after.uid() == before.uid() && after.gid() == before.gid());
    assert!(rt; !fs::exists(&rt, "replaced.log.new")?);
    // What is appended goes to the new file.
    disk.write_at(14, b"more\n").map_err(|_| "not written")?;
    assert_eq!(rt;
        fs::read(&rt, "replaced.log")?.as_slice(),
        b"the new lines\nmore\n".as_slice()
    );
    assert_eq!(rt;
        disk.read(alloc).map_err(|_| "not read")?.as_slice(),
        b"the new lines\nmore\n".as_slice()
    );
    fs::remove_file(&rt, "replaced.log")?;
    Ok(())
}

#[test]
fn a_new_file_that_cannot_be_written_leaves_the_old_one(rt: HostRuntime) -> Result<(), Fail> {
    let alloc = rt.alloc();
    let mut disk = stored(&rt, alloc, "kept.log", b"old\n")?;
    fs::create_dir(&rt, "kept.log.new")?;
    let answer = disk.renew(b"new\n");
    assert!(rt; matches!(answer, Err(RenewError::Kept(DiskError::Failed))));
    assert_eq!(rt; fs::read(&rt, "kept.log")?.as_slice(), b"old\n".as_slice());
    fs::remove_dir(&rt, "kept.log.new")?;
    assert!(rt; disk.renew(b"new\n").is_ok());
    assert_eq!(rt; fs::read(&rt, "kept.log")?.as_slice(), b"new\n".as_slice());
    fs::remove_file(&rt, "kept.log")?;
    Ok(())
}

#[test]
fn a_rename_that_fails_loses_the_file(rt: HostRuntime) -> Result<(), Fail> {
    let alloc = rt.alloc();
    let mut disk = stored(&rt, alloc, "lost.log", b"old\n")?;
    fs::remove_file(&rt, "lost.log")?;
    fs::create_dir(&rt, "lost.log")?;
    assert!(rt; matches!(disk.renew(b"new\n"), Err(RenewError::Lost)));
    fs::remove_dir(&rt, "lost.log")?;
    disk.remove_unfinished()?;
    assert!(rt; !fs::exists(&rt, "lost.log.new")?);
    Ok(())
}

#[test]
fn a_file_that_was_renamed_is_noticed(rt: HostRuntime) -> Result<(), Fail> {
    let alloc = rt.alloc();
    let mut disk = stored(&rt, alloc, "named.log", b"old\n")?;
    assert_eq!(rt; disk.is_named(), Ok(true));
    fs::rename(&rt, "named.log", "away.log")?;
    assert_eq!(rt; disk.is_named(), Ok(false));
    assert_eq!(rt; disk.trouble(), Some(Trouble::Unnamed));
    // Another file of that name isn't the one, and isn't written over.
    fs::write(&rt, "named.log", "another\n")?;
    assert_eq!(rt; disk.is_named(), Ok(false));
    assert!(rt; matches!(disk.renew(b"new\n"), Err(RenewError::Lost)));
    assert_eq!(rt;
        fs::read(&rt, "named.log")?.as_slice(),
        b"another\n".as_slice()
    );
    assert!(rt; !fs::exists(&rt, "named.log.new")?);
    fs::rename(&rt, "away.log", "named.log")?;
    assert_eq!(rt; disk.is_named(), Ok(true));
    // A file that it puts in its own place is the one from then on.
    assert!(rt; disk.renew(b"new\n").is_ok());
    assert_eq!(rt; disk.is_named(), Ok(true));
    fs::remove_file(&rt, "named.log")?;
    Ok(())
}

#[test]
fn a_file_alike_is_made_where_none_is(rt: HostRuntime) -> Result<(), Fail> {
    let alloc = rt.alloc();
    let disk = stored(&rt, alloc, "alike.log", b"old\n")?;
    let like = fs::metadata(&rt, "alike.log")?;
    symlink(&rt, "alike.log", "link")?;
    assert!(rt; make_alike(&rt, "link", &like).is_err());
    assert_eq!(rt; fs::read(&rt, "alike.log")?.as_slice(), b"old\n".as_slice());
    drop(make_alike(&rt, "made.log", &like)?);
    assert_eq!(rt; fs::metadata(&rt, "made.log")?.mode(), like.mode());
    assert!(rt; make_alike(&rt, "made.log", &like).is_err());
    // It takes the place of the link, and not of what that leads to.
    let how = OpenOptions::new()
        .read(true)
        .write(true)
        .open(&rt, "made.log")?;
    StoredFile::new(alloc, rt, "made.log", how)?.move_to("link")?;
    assert_eq!(rt; fs::read(&rt, "link")?.as_slice(), b"".as_slice());
    assert_eq!(rt; disk.path(), "alike.log");
    fs::remove_file(&rt, "link")?;
    fs::remove_file(&rt, "alike.log")?;
    Ok(())
}
