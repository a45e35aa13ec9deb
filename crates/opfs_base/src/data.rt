//! The bytes that a call writes.

ghost use Rattle.std.specs.Prelude.{◌≡◌, ◌==◌, ◌+◌, ◌≤◌, ◌++◌, length, replicate, take, drop, IfOk};
ghost use Rattle.std.specs.Vec.{vec_capacity};
ghost use Rattle.std.specs.Arc.{arc_value};
ghost use Rattle.opfs_base.specs.Data.{told_bytes};

use crate::bytes::Bytes;
use std::alloc::{AllocError, Global};
use std::marker::Model;
use std::sync::Arc;

/// Bytes that stand once in memory, whoever holds them, seen as the list of them.
#[derive(Drop)]
pub struct SharedBytes {
    held: Arc<Bytes>,
}

impl Model for SharedBytes {
    ghost use Rattle.std.specs.Prelude.{List, ℕ};

    ghost Value = { List ℕ };

    ghost use Rattle.std.specs.Arc.{arc_value};

    ghost view = { λ shared. arc_value shared.held };
}

impl SharedBytes {
    /// Puts bytes where they can be shared. Takes the memory of a count.
    pub fn make(alloc: Global, bytes: Bytes) -> Result<SharedBytes, AllocError>
        ensures { IfOk result (λ shared. shared ≡ bytes) }
    {
        match Arc::new(alloc, bytes) {
            Ok(held) => Ok(SharedBytes { held }),
            Err(_) => Err(AllocError),
        }
    }

    /// One more holder of the same bytes, with no copy of them. An error where the count of holders is full.
    pub fn share(&self) -> Result<SharedBytes, AllocError>
        ensures { IfOk result (λ shared. shared ≡ self.now) }
    {
        let held = Arc::try_clone(&self.held)?;
        Ok(SharedBytes { held })
    }

    /// The bytes as a slice.
    pub fn as_slice(&self) -> &[u8]
        ensures { result.now ≡ self.now }
    {
        let bytes: &Bytes = &*self.held;
        bytes.as_slice()
    }

    /// How many bytes there are.
    pub fn len(&self) -> usize
        ensures { result ≡ length self.now }
    {
        self.as_slice().len()
    }

    /// Whether there is no byte.
    pub fn is_empty(&self) -> bool
        ensures { result ≡ (length self.now == 0) }
    {
        self.len() == 0
    }

    /// The bytes for this holder alone: those that are held, where nobody else holds them, and a copy of them otherwise.
    pub fn into_bytes(self, alloc: Global) -> Result<Bytes, AllocError>
        ensures { IfOk result (λ bytes. bytes ≡ self) }
    {
        match Arc::try_unwrap(self.held) {
            Ok(bytes) => Ok(bytes),
            Err(shared) => copy_held(alloc, &shared),
        }
    }
}

/// A copy of bytes that others hold too.
fn copy_held(alloc: Global, held: &Arc<Bytes>) -> Result<Bytes, AllocError>
    ensures { IfOk result (λ bytes. bytes ≡ arc_value held.now) }
{
    let bytes: &Bytes = &**held;
    bytes.copy(alloc)
}

/// How bytes are kept.
#[derive(Drop)]
pub enum DataForm {
    /// One by one.
    Given(SharedBytes),
    /// One byte so many times.
    Fill { byte: u8, count: u64 },
}

/// How bytes are told.
#[derive(Clone, Copy)]
pub enum Told<'a> {
    /// One by one.
    Given(&'a [u8]),
    /// One byte so many times.
    Fill(u8, u64),
}

/// The bytes that a call writes, seen as the list of them. They are kept as they were told, given or one byte so many
/// times, and no holder has a copy of its own.
#[derive(Drop)]
pub struct Data {
    form: DataForm,
}

impl Model for Data {
    ghost use Rattle.std.specs.Prelude.{List, ℕ};

    ghost Value = { List ℕ };

    ghost use Rattle.opfs_base.specs.Forms.{bytes_of_form};

    ghost view = { λ held. bytes_of_form held.form };
}

impl Data {
    /// These bytes. Takes the memory of a count.
    pub fn given(alloc: Global, bytes: Bytes) -> Result<Data, AllocError>
        ensures { IfOk result (λ made. made ≡ bytes) }
    {
        let shared = SharedBytes::make(alloc, bytes)?;
        Ok(Data {
            form: DataForm::Given(shared),
        })
    }

    /// One byte so many times. Takes no memory.
    pub fn filled(byte: u8, count: u64) -> Data
        ensures { result ≡ replicate count byte }
    {
        Data {
            form: DataForm::Fill { byte, count },
        }
    }

    /// One more holder of the same bytes, with no copy of them. An error where the count of holders is full.
    pub fn share(&self) -> Result<Data, AllocError>
        ensures { IfOk result (λ shared. shared ≡ self.now) }
    {
        match &self.form {
            DataForm::Given(bytes) => {
                let shared = bytes.share()?;
                Ok(Data {
                    form: DataForm::Given(shared),
                })
            }
            DataForm::Fill { byte, count } => Ok(Data::filled(*byte, *count)),
        }
    }

    /// The bytes as they are told.
    pub fn told(&self) -> Told<'_>
        ensures { told_bytes result ≡ self.now }
    {
        match &self.form {
            DataForm::Given(bytes) => Told::Given(bytes.as_slice()),
            DataForm::Fill { byte, count } => Told::Fill(*byte, *count),
        }
    }

    /// How many bytes there are.
    pub fn len(&self) -> u64
        ensures { result ≡ length self.now }
    {
        match self.told() {
            Told::Given(bytes) => bytes.len() as u64,
            Told::Fill(_, count) => count,
        }
    }

    /// Whether there is no byte.
    pub fn is_empty(&self) -> bool
        ensures { result ≡ (length self.now == 0) }
    {
        self.len() == 0
    }

    /// Copies the bytes from a place on over a slice. Takes no memory.
    pub fn copy_into(&self, from: u64, into: &mut [u8])
        requires { from + length into.old ≤ length self.now }
        ensures { into.new ≡ take (length into.old) (drop from self.now) }
    {
        match self.told() {
            Told::Given(bytes) => {
                let from = from as usize;
                into.copy_from_slice(&bytes[from..from + into.len()]);
            }
            Told::Fill(byte, _) => into.fill(byte),
        }
    }

    /// Appends so many of the bytes from a place on. Takes no memory.
    pub fn append_to(&self, from: u64, len: u64, into: &mut Vec<u8>)
        requires part { from + len ≤ length self.now }
        requires room { length into.old.items + len ≤ vec_capacity into.old }
        ensures bytes { into.new.items ≡ into.old.items ++ take len (drop from self.now) }
        ensures room { vec_capacity into.old ≤ vec_capacity into.new }
    {
        match self.told() {
            Told::Given(bytes) => {
                let from = from as usize;
                into.extend_from_slice(&bytes[from..from + len as usize])
                    .unwrap();
            }
            Told::Fill(byte, _) => {
                let end = into.len() + len as usize;
                into.resize(end, byte).unwrap();
            }
        }
    }
}
