//! What an agent has open, with the lock that it holds.

ghost use Rattle.std.specs.Prelude.{◌≡◌, Some, IsSome};
ghost use Rattle.std.specs.Option.{option_copied};
ghost use Rattle.opfs_machine.specs.Agents.{stream_in, handle_in, is_open_row};
ghost use Rattle.opfs_register.specs.Slots.{outline_in, keeping};
ghost use Rattle.opfs_locks.specs.declared.Want.TheVariants as want;
ghost use Rattle.opfs_machine.specs.Rulings.{want_of};

use opfs_hist::Mode;
use opfs_locks::Held;
use opfs_machine::{HandleOutline, Place, StreamOutline};
use std::marker::Model;

/// An open writable stream and the shared lock that it holds, seen as what the shared store knows of it.
pub struct OpenStream {
    outline: StreamOutline,
    held: Held,
}

impl Model for OpenStream {
    ghost use Rattle.std.specs.Prelude.{◌≡◌};
    ghost use Rattle.opfs_locks.specs.declared.Want.TheVariants as want;
    ghost use Rattle.opfs_machine.specs.declared.own.StreamOutline.{StreamOutline};

    ghost Value = { StreamOutline };

    ghost view = { λ stream. stream.outline };

    ghost invariant = { λ stream. stream.held ≡ want.Shared };
}

/// An open access handle and the lock that it holds, seen as what the shared store knows of it.
pub struct OpenHandle {
    outline: HandleOutline,
    held: Held,
}

impl Model for OpenHandle {
    ghost use Rattle.std.specs.Prelude.{◌≡◌};
    ghost use Rattle.opfs_machine.specs.declared.own.HandleOutline.{HandleOutline};
    ghost use Rattle.opfs_machine.specs.Rulings.{want_of};

    ghost Value = { HandleOutline };

    ghost view = { λ handle. handle.outline };

    ghost invariant = { λ handle. handle.held ≡ want_of handle.outline.mode };
}

/// An own row of an agent, with the lock that it holds while it is open.
pub enum HeldRow {
    /// An open writable stream.
    Stream(OpenStream),
    /// A stream that was closed or aborted.
    ClosedStream,
    /// An open access handle.
    Handle(OpenHandle),
    /// An access handle that was closed.
    ClosedHandle,
    /// The bytes that a file had.
    Snapshot,
}

impl HeldRow {
    /// The open stream that it is.
    pub(crate) fn stream(&self) -> Option<&StreamOutline>
        ensures { option_copied result ≡ stream_in (outline_in self.now) }
    {
        match self {
            HeldRow::Stream(stream) => Some(stream.outline()),
            _ => None,
        }
    }

    /// The open access handle that it is.
    pub(crate) fn handle(&self) -> Option<&HandleOutline>
        ensures { option_copied result ≡ handle_in (outline_in self.now) }
    {
        match self {
            HeldRow::Handle(handle) => Some(handle.outline()),
            _ => None,
        }
    }

    /// Whether it is an open stream or access handle.
    pub(crate) fn is_open(&self) -> bool
        ensures { result ≡ is_open_row (outline_in self.now) }
    {
        matches!(self, HeldRow::Stream(_) | HeldRow::Handle(_))
    }

    /// Ends what it holds, without giving any lock back.
    pub(crate) fn end(self) {
        match self {
            HeldRow::Stream(stream) => {
                let (_outline, held) = stream.into_parts();
                held.end();
            }
            HeldRow::Handle(handle) => {
                let (_outline, held) = handle.into_parts();
                held.end();
            }
            HeldRow::ClosedStream | HeldRow::ClosedHandle | HeldRow::Snapshot => (),
        }
    }

    /// Keeps so many blocks for an open row.
    pub(crate) fn set_reserve(&mut self, reserve: u64)
        ensures { outline_in self.new ≡ keeping reserve (outline_in self.old) }
    {
        match self {
            HeldRow::Stream(stream) => stream.set_reserve(reserve),
            HeldRow::Handle(handle) => handle.set_reserve(reserve),
            _ => (),
        }
    }

    /// The open stream that it is.
    pub(crate) fn into_stream(self) -> OpenStream
        requires { IsSome (stream_in (outline_in self)) }
        ensures { Some result ≡ stream_in (outline_in self) }
    {
        match self {
            HeldRow::Stream(stream) => stream,
            HeldRow::Handle(handle) => {
                let (_outline, held) = handle.into_parts();
                held.end();
                unreachable!()
            }
            HeldRow::ClosedStream | HeldRow::ClosedHandle | HeldRow::Snapshot => { unreachable!() }
        }
    }

    /// The open access handle that it is.
    pub(crate) fn into_handle(self) -> OpenHandle
        requires { IsSome (handle_in (outline_in self)) }
        ensures { Some result ≡ handle_in (outline_in self) }
    {
        match self {
            HeldRow::Handle(handle) => handle,
            HeldRow::Stream(stream) => {
                let (_outline, held) = stream.into_parts();
                held.end();
                unreachable!()
            }
            HeldRow::ClosedStream | HeldRow::ClosedHandle | HeldRow::Snapshot => { unreachable!() }
        }
    }
}

impl OpenStream {
    /// A stream on a file with a shared lock on it.
    pub fn make(file: Place, reserve: u64, held: Held) -> OpenStream
        requires { held ≡ want.Shared }
        ensures { result ≡ record { file = file; reserve = reserve } }
    {
        OpenStream {
            outline: StreamOutline { file, reserve },
            held,
        }
    }

    /// What the shared store knows of it.
    pub fn outline(&self) -> &StreamOutline
        ensures { result.now ≡ self.now }
    {
        &self.outline
    }

    /// Keeps so many blocks for it.
    pub fn set_reserve(&mut self, reserve: u64)
        ensures { self.new ≡ record self.old { reserve = reserve } }
    {
        self.outline.reserve = reserve;
    }

    /// Its outline and its lock.
    pub fn into_parts(self) -> (StreamOutline, Held)
        ensures outline { result.0 ≡ self }
        ensures held { result.1 ≡ want.Shared }
    {
        let OpenStream { outline, held } = self;
        (outline, held)
    }
}

impl OpenHandle {
    /// An access handle on a file with its lock.
    pub fn make(file: Place, mode: Mode, held: Held) -> OpenHandle
        requires { held ≡ want_of mode }
        ensures { result ≡ record { file = file; mode = mode; reserve = 0 } }
    {
        OpenHandle {
            outline: HandleOutline {
                file,
                mode,
                reserve: 0,
            },
            held,
        }
    }

    /// What the shared store knows of it.
    pub fn outline(&self) -> &HandleOutline
        ensures { result.now ≡ self.now }
    {
        &self.outline
    }

    /// Keeps so many blocks for it.
    pub fn set_reserve(&mut self, reserve: u64)
        ensures { self.new ≡ record self.old { reserve = reserve } }
    {
        self.outline.reserve = reserve;
    }

    /// Its outline and its lock.
    pub fn into_parts(self) -> (HandleOutline, Held)
        ensures outline { result.0 ≡ self }
        ensures held { result.1 ≡ want_of self.mode }
    {
        let OpenHandle { outline, held } = self;
        (outline, held)
    }
}
