//! Who ended a session.
//!
//! **Only `LinkStates` makes a `SessionEnding`.** Who ended a session first is known under the lock, where no clause of the caller reaches. What the
//! states of the links answered is therefore a value with private fields, which the guard of a session hands on.
ghost use Rattle.std.specs.Prelude.{◌≡◌};

use std::marker::Model;

/// What the states of the links answered to one who ended a session: whether nobody did so before. Only they make one, so that whoever hands it on says
/// what they said. A contract sees it as a `SessionEndingView`.
#[derive(Drop)]
pub struct SessionEnding {
    pub(crate) link: usize,
    pub(crate) session: u32,
    pub(crate) is_first: bool,
}

impl Model for SessionEnding {
    ghost use Rattle.router_daemon.specs.Endings.{SessionEndingView};

    ghost Value = { SessionEndingView };

    ghost view = { λ e. record { link = e.link; session = e.session; is_first = e.is_first } };
}

impl SessionEnding {
    /// The link's number.
    pub fn link(&self) -> usize
        ensures { result ≡ self.now.link }
    {
        self.link
    }

    /// The session that is over.
    pub fn session(&self) -> u32
        ensures { result ≡ self.now.session }
    {
        self.session
    }

    /// Whether nobody ended it before: who is first is to enter its Down, and to tell people why.
    pub fn is_first(&self) -> bool
        ensures { result ≡ self.now.is_first }
    {
        self.is_first
    }
}
