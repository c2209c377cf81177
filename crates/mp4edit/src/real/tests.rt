// The real folder over files of the system, each test in a folder of its own, and the real report.
ghost use Rattle.std.specs.Prelude.{◌≡◌, None};

use super::{RealFolder, RealReport};
use mp_ports::{Folder, OpenFail, PortFault, Report};
use std::fs;
use std::os::unix::fs::{PermissionsExt, symlink};
use std::test::Fail;

#[test]
fn an_output_takes_its_name_when_it_is_finished(rt: HostRuntime) -> Result<(), Fail> {
    let alloc = rt.alloc();
    fs::create_dir(&rt, "whole")?;
    fs::write(&rt, "whole/b.bin", "old")?;
    fs::write(&rt, "whole/mp4edit-0.part", "another's")?;
    fs::set_permissions(&rt, "whole/b.bin", fs::Permissions::from_mode(0o606))?;
    let mut folder = RealFolder::new(&rt, alloc);
    assert_eq!(rt; folder.open("whole/c.bin"), Err(OpenFail::Missing));
    folder.create(String::from_str(alloc, "whole/b.bin")?)?;
    folder.append(b"new ")?;
    folder.append(b"bytes")?;
    let old = fs::read(&rt, "whole/b.bin")?;
    assert_eq!(rt; old.as_slice(), b"old".as_slice());
    let part = fs::read(&rt, "whole/mp4edit-1.part")?;
    assert_eq!(rt; part.as_slice(), b"new bytes".as_slice());
    folder.finish()?;
    let file = folder.open("whole/b.bin")?;
    let size = folder.size(file);
    assert_eq!(rt; size, 9);
    let mut middle = [0u8; 5];
    folder.read_at(file, 2, &mut middle)?;
    assert_eq!(rt; middle, *b"w byt");
    let permissions = fs::metadata(&rt, "whole/b.bin")?.permissions();
    assert_eq!(rt; permissions.mode() & 0o777, 0o606);
    assert!(rt; !fs::exists(&rt, "whole/mp4edit-1.part")?);
    let other = fs::read(&rt, "whole/mp4edit-0.part")?;
    assert_eq!(rt; other.as_slice(), b"another's".as_slice());
    fs::remove_dir_all(&rt, "whole")?;
    Ok(())
}

#[test]
fn an_output_that_is_not_finished_leaves_nothing(rt: HostRuntime) -> Result<(), Fail> {
    let alloc = rt.alloc();
    fs::create_dir(&rt, "unfinished")?;
    fs::write(&rt, "unfinished/b.bin", "old")?;
    {
        let mut folder = RealFolder::new(&rt, alloc);
        folder.create(String::from_str(alloc, "unfinished/b.bin")?)?;
        folder.append(b"new")?;
        assert!(rt; fs::exists(&rt, "unfinished/mp4edit-0.part")?);
    }
    let old = fs::read(&rt, "unfinished/b.bin")?;
    assert_eq!(rt; old.as_slice(), b"old".as_slice());
    fs::remove_file(&rt, "unfinished/b.bin")?;
    // Only an empty folder can be removed so.
    fs::remove_dir(&rt, "unfinished")?;
    Ok(())
}

#[test]
fn an_input_under_the_name_of_the_output_is_read_to_its_end(rt: HostRuntime) -> Result<(), Fail> {
    let alloc = rt.alloc();
    fs::create_dir(&rt, "same")?;
    fs::write(&rt, "same/a.bin", "input")?;
    let absolute = fs::canonicalize(&rt, "same/a.bin")?;
    let absolute = absolute.as_str();
    symlink(&rt, "a.bin", "same/symbolic.bin")?;
    fs::hard_link(&rt, "same/a.bin", "same/hard.bin")?;
    for output in [
        "same/symbolic.bin",
        "same/hard.bin",
        "same/./a.bin",
        absolute,
    ] {
        fs::write(&rt, "same/a.bin", "input")?;
        let mut folder = RealFolder::new(&rt, alloc);
        let file = folder.open("same/a.bin")?;
        folder.create(String::from_str(alloc, output)?)?;
        folder.append(b"output")?;
        folder.finish()?;
        let mut read = [0u8; 5];
        let size = folder.size(file);
        assert_eq!(rt; size, 5, "{output}");
        folder.read_at(file, 0, &mut read)?;
        assert_eq!(rt; read, *b"input", "{output}");
        let written = fs::read(&rt, output)?;
        assert_eq!(rt; written.as_slice(), b"output".as_slice(), "{output}");
        let is_link = fs::symlink_metadata(&rt, output)?.is_symlink();
        assert!(rt; !is_link, "{output}");
    }
    fs::remove_dir_all(&rt, "same")?;
    Ok(())
}

#[test]
fn what_is_no_plain_file_is_not_read(rt: HostRuntime) -> Result<(), Fail> {
    let alloc = rt.alloc();
    for name in [
        ".",
        "/dev/zero",
        "/proc/self",
        "/proc/version",
        "/proc/version/x",
    ] {
        let mut folder = RealFolder::new(&rt, alloc);
        let opened = folder.open(name);
        assert_eq!(rt; opened, Err(OpenFail::Failed), "{name}");
    }
    Ok(())
}

#[test]
fn an_output_that_may_not_stand_is_not_created(rt: HostRuntime) -> Result<(), Fail> {
    let alloc = rt.alloc();
    for name in [".", "no-such-folder/b.bin", "/proc/version/b.bin"] {
        let mut folder = RealFolder::new(&rt, alloc);
        let created = folder.create(String::from_str(alloc, name)?);
        assert_eq!(rt; created, Err(PortFault), "{name}");
    }
    Ok(())
}

#[test]
fn a_name_may_have_255_bytes(rt: HostRuntime) -> Result<(), Fail> {
    let alloc = rt.alloc();
    fs::create_dir(&rt, "long")?;
    let name = format!(in alloc; "long/{:b>255}", "")?;
    let mut folder = RealFolder::new(&rt, alloc);
    folder.create(String::from_str(alloc, &name)?)?;
    folder.append(b"bytes")?;
    folder.finish()?;
    let written = fs::read(&rt, name.as_str())?;
    assert_eq!(rt; written.as_slice(), b"bytes".as_slice());
    fs::remove_dir_all(&rt, "long")?;
    Ok(())
}

#[test]
fn a_device_is_written_as_it_stands(rt: HostRuntime) -> Result<(), Fail> {
    let alloc = rt.alloc();
    fs::create_dir(&rt, "device")?;
    for (device, appended) in [("/dev/null", Ok(())), ("/dev/full", Err(PortFault))] {
        symlink(&rt, device, "device/b.bin")?;
        {
            let mut folder = RealFolder::new(&rt, alloc);
            folder.create(String::from_str(alloc, "device/b.bin")?)?;
            let got = folder.append(b"bytes");
            assert_eq!(rt; got, appended, "{device}");
        }
        let is_link = fs::symlink_metadata(&rt, "device/b.bin")?.is_symlink();
        assert!(rt; is_link, "{device}");
        fs::remove_file(&rt, "device/b.bin")?;
    }
    fs::remove_dir(&rt, "device")?;
    Ok(())
}

#[test]
fn the_real_report_is_standard_output(rt: HostRuntime) -> Result<(), Fail> {
    let mut report = RealReport::new(&rt);
    report.say(b"said\n")?;
    Ok(())
}
