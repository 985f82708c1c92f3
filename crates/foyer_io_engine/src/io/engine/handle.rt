//! The answer of a read or a write.
ghost use Rattle.std.specs.Prelude.{◌≡◌, Some, None, IsSome};

use foyer_device_page::error::Result;
use futures::Future;
use futures::task::{Context, Poll};
use std::marker::Model;

/// The buffer and the result of a read or a write, which are there at once and are given once.
#[derive(Drop)]
pub struct IoHandle<B> {
    inner: Option<(B, Result<()>)>,
}

impl<B> Model for IoHandle<B> {
    ghost use Rattle.std.specs.Prelude.{Option, Result};
    ghost use Rattle.foyer_device_page.specs.declared.error.Error.{Error};

    ghost Value = { Option (B × Result (Unit {0}) Error) };

    ghost view = { λ h. h.inner };
}

impl<B> IoHandle<B> {
    /// A handle that gives this buffer and this result.
    pub fn new(buffer: B, outcome: Result<()>) -> IoHandle<B>
        ensures { result ≡ Some (buffer, outcome) }
    {
        IoHandle {
            inner: Some((buffer, outcome)),
        }
    }

    /// Gives the buffer and the result, without a runtime and without memory. They must not have been given before.
    pub fn into_inner(self) -> (B, Result<()>)
        requires { IsSome self }
        ensures { self ≡ Some result }
    {
        let IoHandle { inner } = self;
        inner.unwrap()
    }

    /// The buffer and the result, if they weren't given yet.
    pub fn take(&mut self) -> Option<(B, Result<()>)>
        ensures given { result ≡ self.old }
        ensures once { self.new ≡ None }
    {
        self.inner.take()
    }
}

impl<B: Drop> Future for IoHandle<B> {
    type Output = (B, Result<()>);

    ghost use Rattle.std.specs.Prelude.{◌≡◌, Some, IsSome};

    ghost can_poll = { λ h. IsSome h };

    ghost gives = { λ h answer. h ≡ Some answer };

    fn poll(&mut self, _cx: &mut Context<'_>) -> Poll<(B, Result<()>)> {
        Poll::Ready(self.take().unwrap())
    }
}
