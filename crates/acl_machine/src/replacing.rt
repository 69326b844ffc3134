ghost use Rattle.std.specs.Prelude.{◌≡◌, IfOk};
ghost use Rattle.std.specs.String.{string_bytes};

use crate::disk::is_memory;
use std::alloc::Global;
use std::fs::{File, OpenFile, OpenOptions, Permissions};
use std::io::ErrorKind;
use std::rt::Files;
use std::{fs, io};

// So many names beside a file are tried.
const MOST_PARTIALS: u32 = 65_536;

/// A file that is begun: its path, the file that is open, and where it is to lie.
pub(crate) struct Opened<R: Files> {
    pub(crate) path: String,
    pub(crate) file: R::File,
    beside: Option<Beside>,
}

// Where a file is let go, that is one step.
impl<R: Files> Drop for Opened<R> {
    fn drop(self) {
        let Opened { path, file, beside } = self;
        drop(path);
        drop(file);
        drop(beside);
    }
}

// The path of a file that is written beside another, and the path of that one, which it replaces.
struct Beside {
    partial: String,
    target: String,
}

impl Drop for Beside {
    fn drop(self) {
        let Beside { partial, target } = self;
        drop(partial);
        drop(target);
    }
}

// How a file is written.
#[derive(Drop)]
enum Way {
    InPlace,
    Beside {
        target: String,
        permissions: Option<Permissions>,
    },
}

/// Begins the file at the path.
///
/// A regular file, or one that is not there, is written beside the path, and the target of a link beside
/// that target. What is no regular file is written in place, and so is a file in a folder that takes no
/// new one for want of permission, the new target of a link that leads nowhere, and a target whose path is
/// no text.
pub(crate) fn open_at<R: Files + AllocGlobal>(rt: &R, path: &str) -> io::Result<Opened<R>>
    ensures { IfOk result (λ f. string_bytes f.path ≡ path.now) }
{
    let copy = String::from_str(rt.alloc(), path)?;
    match way_to(rt, path)? {
        Way::InPlace => in_place(rt, copy),
        Way::Beside {
            target,
            permissions,
        } => match open_beside(rt, target, permissions) {
            Ok((file, beside)) => Ok(Opened {
                path: copy,
                file,
                beside: Some(beside),
            }),
            Err(error) if error.kind() == ErrorKind::PermissionDenied => in_place(rt, copy),
            Err(error) => Err(error),
        },
    }
}

fn in_place<R: Files>(rt: &R, path: String) -> io::Result<Opened<R>>
    ensures { IfOk result (λ f. f.path ≡ path) }
{
    let file = fs::create(rt, path.as_str())?;
    Ok(Opened {
        path,
        file,
        beside: None,
    })
}

fn way_to<R: Files + AllocGlobal>(rt: &R, path: &str) -> io::Result<Way> {
    match fs::metadata(rt, path) {
        Ok(found) if found.is_file() => way_to_file(rt, path, found.permissions()),
        Ok(_) => Ok(Way::InPlace),
        Err(error) if error.kind() == ErrorKind::NotFound => {
            if is_link(rt, path) {
                return Ok(Way::InPlace);
            }
            Ok(Way::Beside {
                target: String::from_str(rt.alloc(), path)?,
                permissions: None,
            })
        }
        Err(error) => Err(error),
    }
}

// The way to a regular file that is there. One that may not be written is not replaced.
fn way_to_file<R: Files + AllocGlobal>(
    rt: &R,
    path: &str,
    permissions: Permissions,
) -> io::Result<Way> {
    OpenOptions::new().write(true).open(rt, path)?;
    if !is_link(rt, path) {
        return Ok(Way::Beside {
            target: String::from_str(rt.alloc(), path)?,
            permissions: Some(permissions),
        });
    }
    match fs::canonicalize(rt, path) {
        Ok(target) => Ok(Way::Beside {
            target: target.into_string(),
            permissions: Some(permissions),
        }),
        Err(error) if is_memory(&error) => Err(error),
        Err(_) => Ok(Way::InPlace),
    }
}

fn is_link<R: Files>(rt: &R, path: &str) -> bool {
    match fs::symlink_metadata(rt, path) {
        Ok(found) => found.is_symlink(),
        Err(_) => false,
    }
}

// Opens a new file beside the target, with its permissions, under the first name that is free.
fn open_beside<R: Files + AllocGlobal>(
    rt: &R,
    target: String,
    permissions: Option<Permissions>,
) -> io::Result<(R::File, Beside)> {
    for number in 0..MOST_PARTIALS {
        let partial = partial_beside(rt.alloc(), target.as_str(), number)?;
        match File::create_new(rt, partial.as_str()) {
            Ok(file) => {
                return with_permissions(rt, file, Beside { partial, target }, permissions);
            }
            Err(error) if error.kind() == ErrorKind::AlreadyExists => {}
            Err(error) => return Err(error),
        }
    }
    Err(ErrorKind::AlreadyExists.into())
}

fn with_permissions<R: Files>(
    rt: &R,
    file: R::File,
    beside: Beside,
    permissions: Option<Permissions>,
) -> io::Result<(R::File, Beside)> {
    let Some(permissions) = permissions else {
        return Ok((file, beside));
    };
    match file.set_permissions(permissions) {
        Ok(()) => Ok((file, beside)),
        Err(error) => {
            remove(rt, &beside);
            Err(error)
        }
    }
}

// The name of a file that is not yet whole, in the folder of the target.
fn partial_beside(alloc: Global, target: &str, number: u32) -> io::Result<String> {
    let mut path = String::from_str(alloc, folder_of(target))?;
    let name = format!(in alloc; ".aclgen-{number}.partial")?;
    path.push_str(name.as_str())?;
    Ok(path)
}

// The folder of a path, with the slash behind it.
fn folder_of(path: &str) -> &str {
    match path.rfind('/') {
        Some(slash) => &path[..slash + 1],
        None => "",
    }
}

// Where this fails the file stays: the failure that is told is the one before it.
fn remove<R: Files>(rt: &R, beside: &Beside) {
    let _removed = fs::remove_file(rt, beside.partial.as_str());
}

impl<R: Files> Opened<R> {
    /// Ends a file that is written: what lies beside is put into the place of what it replaces, in one step.
    pub(crate) fn settle(&self, rt: &R) -> io::Result<()> {
        match &self.beside {
            None => Ok(()),
            Some(beside) => {
                self.file.sync_all()?;
                fs::rename(rt, beside.partial.as_str(), beside.target.as_str())
            }
        }
    }

    /// Removes what was written beside.
    pub(crate) fn give_up(&self, rt: &R) {
        if let Some(beside) = &self.beside {
            remove(rt, beside);
        }
    }
}
