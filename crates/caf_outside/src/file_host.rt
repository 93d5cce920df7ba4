ghost use Rattle.std.specs.Prelude.{List, ℕ, ◌≡◌, ◌∷◌, ◌++◌, ◌<◌, [], None, Err, vec_len, vec_capacity};
ghost use Rattle.caf_outside.specs.Texts.{times};
ghost use Rattle.caf_outside.specs.Causes.{HasLoadCause};

use crate::{Failed, Host, LoadFail};
use caf_base::Sequence;
use std::alloc::Global;
use std::io::{ErrorKind, Read};
use std::rt::Files;
use std::{fs, io};

/// The files of the system. It tells nothing of what they hold.
#[derive(Drop)]
pub struct FileHost<'a, R: Files> {
    rt: &'a R,
    // The name of each load that failed.
    failed: Vec<Sequence<u8>>,
    save_faults: u64,
}

impl<'a, R: Files> FileHost<'a, R> {
    pub fn new(alloc: Global, rt: &'a R) -> FileHost<'a, R>
        ensures loads { (name : List ℕ) → ⟦<FileHost<'a, R> as Host>⟧.load_faults result name ≡ 0 }
        ensures saves { ⟦<FileHost<'a, R> as Host>⟧.save_faults result ≡ 0 }
    {
        FileHost {
            rt,
            failed: Vec::new(alloc),
            save_faults: 0,
        }
    }
}

// The bytes of a file, at most one more than the limit.
fn read_file<R: Files>(rt: &R, alloc: Global, name: &str, limit: usize) -> io::Result<Vec<u8>> {
    let file = fs::File::open(rt, name)?;
    let mut bytes = Vec::new(alloc);
    let most = (limit as u64).saturating_add(1);
    file.take(most).read_to_end(&mut bytes)?;
    Ok(bytes)
}

impl<R: Files> Host for FileHost<'_, R> {
    ghost texts = { λ _. None };

    ghost load_faults = { λ host name. times host.failed.items name };

    ghost save_faults = { λ host. host.save_faults };

    fn load(&mut self, alloc: Global, name: &str, limit: usize) -> Result<Vec<u8>, LoadFail> {
        let own_name = Sequence::from_slice(alloc, name.as_bytes())?;
        self.failed.reserve(1)?;
        match read_file(self.rt, alloc, name, limit) {
            Ok(bytes) if bytes.len() > limit => Err(LoadFail::TooLong),
            Ok(bytes) => Ok(bytes),
            Err(fault) if fault.kind() == ErrorKind::OutOfMemory => Err(LoadFail::Memory),
            Err(_) => refuse(&mut self.failed, own_name),
        }
    }

    fn save(&mut self, name: &str, bytes: &[u8]) -> Result<(), Failed> {
        match fs::write(self.rt, name, bytes) {
            Ok(()) => Ok(()),
            Err(_) => {
                self.save_faults = self.save_faults.saturating_add(1);
                Err(Failed)
            }
        }
    }
}

/// Refuses a load, and counts it under its name. There is room for the name.
pub(crate) fn refuse(
    failed: &mut Vec<Sequence<u8>>,
    name: Sequence<u8>,
) -> Result<Vec<u8>, LoadFail>
    requires { vec_len failed.old < vec_capacity failed.old }
    ensures refused { result ≡ Err LoadFail.Failed }
    ensures counted { failed.new.items ≡ failed.old.items ++ name ∷ [] }
{
    failed.push(name).unwrap();
    Err(LoadFail::Failed)
}
